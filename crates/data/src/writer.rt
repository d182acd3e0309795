// Writing data segments: their words at a place, and their bytes.
ghost use Rattle.format.specs.Count.{Appends};
ghost use Rattle.parts.specs.Writing.{Writing};
ghost use Rattle.data.specs.Target.{memory_index_bytes, target};
ghost use Rattle.data.specs.Segment.{data_section};

use format::{Done, Walk, append};
use numbers::append_u32;
use parts::walk_data;
use texts::{Span, append_expr};

// Memory 0 is 00, another one 02 and its index.
fn append_memory(m: u32, out: &mut [u8], s: Done) -> Done
    ensures { Appends (memory_index_bytes.print m) out.old s out.new result }
{
    if m == 0 {
        return append(0, out, s);
    }
    let t = append(2, out, s);
    append_u32(m, out, t)
}

// Mode, memory and offset span, of which each mode has all four words: a passive segment has no memory and no offset.
fn walk_target(words: &[u32], at: usize, text: &[u8], out: &mut [u8], s: Done) -> Walk
    ensures { Writing target text.now words.now at out.old s out.new result }
{
    match words.get(at..)? {
        [0, 0, 0, 0, ..] => Some((at + 4, append(1, out, s))),
        &[1, m, start, len, ..] => {
            let t = append_memory(m, out, s);
            Some((at + 4, append_expr(text, Span { start, len }, out, t)))
        }
        _ => None,
    }
}

// Reads the words behind the 11 and appends the item.
pub fn walk_words(words: &[u32], at: usize, text: &[u8], out: &mut [u8], s: Done) -> Walk
    ensures { Writing data_section text.now words.now at out.old s out.new result }
{
    let (p, t) = walk_target(words, at, text, out, s)?;
    walk_data(words, p, text, out, t)
}
