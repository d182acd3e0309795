// One section: its length, and its bytes where there is room for them.
ghost use Rattle.std.specs.Prelude.{◌≡◌, Ok, false, List, ◌++◌, ℕ, ◌+◌, ◌≤◌, length};
ghost use Rattle.format.specs.Runs.{run};
ghost use Rattle.format.specs.Write.{Writes};
ghost use Rattle.leb128.specs.Leb.{uleb};
ghost use Rattle.frames.specs.Frames.{frame, no_frames};
ghost use Rattle.frames.specs.Builder.{store_most};
ghost use Rattle.frames.specs.Tally.{item_bytes};
ghost use Rattle.sections.specs.Section.{section, head_of, said_of};

use crate::Given;
use frames::Frames;
use leb128::Parts;

// The count that a section says: how many items it has or, of the section that has none, the data count.
pub fn count_of(id: u8, items: usize, given: Given) -> usize
    ensures { result ≡ said_of given id items }
{
    if id == 12 {
        given.count as usize
    } else {
        items
    }
}

// How many bytes a section has that says this count and has items of so many bytes.
pub fn section_len(count: usize, total: usize) -> usize
    requires { total ≤ store_most }
    ensures { ((i : ℕ) (items : List ℕ) → length items ≡ total → result ≡ length (section i (uleb count ++ items))) × (result ≤ total + 21) }
{
    let size = leb128::size(false, count as u64) + total;
    1 + leb128::size(false, size as u64) + size
}

// From here on there is room for what is written.
fn put_number(n: usize, out: &mut [u8]) -> usize
    requires { length (uleb n) ≤ length out.old }
    ensures { Writes (uleb n) out.old out.new (Ok result) }
{
    let parts = Parts {
        neg: false,
        magnitude: n as u64,
    };
    leb128::encode(false, parts, out).unwrap()
}

// What stands before the items of a section.
pub fn put_head(id: u8, count: usize, total: usize, out: &mut [u8]) -> usize
    requires total_within { total ≤ store_most }
    requires room { length (head_of id count total) ≤ length out.old }
    ensures { Writes (head_of id count total) out.old out.new (Ok result) }
{
    out[0] = id;
    let a = 1 + put_number(leb128::size(false, count as u64) + total, &mut out[1..]);
    a + put_number(count, &mut out[a..])
}

// The items of a section, of which there are so many bytes: the walk ends with the last of them.
fn put_items(frames: &[u8], id: u8, total: usize, out: &mut [u8]) -> usize
    requires framed { no_frames (run frame frames.now) ≡ false }
    requires totalled { total ≡ length (item_bytes id frames.now) }
    requires room { total ≤ length out.old }
    ensures { Writes (item_bytes id frames.now) out.old out.new (Ok result) }
{
    let mut walk = Frames::new(frames);
    let mut n = 0;
    // The walk ends with the last item of the section, and goes over none behind it.
    while n < total {
        let (i, item) = walk.next().unwrap();
        if i == id {
            // There is room, and reading the answer takes a third longer.
            let _ = format::copy(item, &mut out[n..]);
            n += item.len();
        }
    }
    n
}

// A section, as the Rust's `encode_section` writes it behind its id.
pub fn put_section(frames: &[u8], id: u8, count: usize, total: usize, out: &mut [u8]) -> usize
    requires framed { no_frames (run frame frames.now) ≡ false }
    requires totalled { (total ≡ length (item_bytes id frames.now)) × (total ≤ store_most) }
    requires room { length (section id (uleb count ++ item_bytes id frames.now)) ≤ length out.old }
    ensures { Writes (section id (uleb count ++ item_bytes id frames.now)) out.old out.new (Ok result) }
{
    let n = put_head(id, count, total, out);
    n + put_items(frames, id, total, &mut out[n..])
}
