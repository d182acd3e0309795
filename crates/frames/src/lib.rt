// The store: lent bytes that hold a frame for each accepted add, one after the other. The state is how much of it is used.
#![tactic(auto)]

ghost use Rattle.std.specs.Prelude.{◌≡◌, ◌+◌, ◌-◌, ◌≤◌, ◌<◌, ◌^◌, IfSome, length};
ghost use Rattle.format.specs.Write.{Writes};
ghost use Rattle.format.specs.Runs.{run};
ghost use Rattle.frames.specs.Frames.{value_of, frame, item_most};
ghost use Rattle.frames.specs.Ids.{id_of, sections, among};
ghost use Rattle.frames.specs.Builder.{fresh, grown_for, store_most, is_over, is_full, Within};
ghost use Rattle.frames.specs.Place.{frame_at};
ghost use Rattle.std.specs.Iterator.{at_most};
ghost use Rattle.frames.specs.Steps.{frame_steps};
ghost use Rattle.frames.specs.Tally.{one_more, tally_of};
ghost use Rattle.frames.specs.Append.{head_bytes};

use format::Written;

// The most bytes of a store, and of an item.
pub const STORE_MOST: usize = 16777216;

const ITEM_MOST: usize = 65536;

// The room used.
#[derive(Clone, Copy, Debug, PartialEq, Eq)]
pub struct State {
    pub used: usize,
}

impl State {
    pub fn new() -> Self
        ensures { result ≡ fresh }
    {
        Self { used: 0 }
    }

    // The state with the frame of an item of n bytes, in a store.
    pub fn grown(self, n: usize) -> Self
        requires { self.used + n + 5 ≤ store_most }
        ensures { result ≡ grown_for self n }
    {
        Self {
            used: self.used + n + 5,
        }
    }
}

// Whether the store is over its limit, or the room used above its length.
pub fn is_over(state: State, store: &[u8]) -> bool
    ensures { result ≡ is_over state store.now }
{
    STORE_MOST < store.len() || store.len() < state.used
}

// Whether the frame of an item of n bytes has no room behind the room used.
pub fn is_full(state: State, store: &[u8], n: usize) -> bool
    requires { Within state store.now × (n ≤ item_most) }
    ensures { result ≡ is_full state store.now n }
{
    store.len() < state.used + n + 5
}

// The sections that hold items.
#[derive(Clone, Copy, Debug, PartialEq, Eq, PartialOrd, Ord, Hash)]
pub enum SectionId {
    Types = 1,
    Imports = 2,
    Tables = 4,
    Elements = 9,
    Data = 11,
}

impl SectionId {
    pub fn id(self) -> u8
        ensures { result ≡ id_of self }
    {
        self as u8
    }
}

// A frame's head: the section id, and the item's length in four bytes, low first.
pub fn put_head(id: u8, n: usize, out: &mut [u8]) -> Written
    ensures { Writes (head_bytes id n) out.old out.new result }
{
    let [a, b, c, d, ..] = n.to_le_bytes();
    format::copy(&[id, a, b, c, d], out)
}

// Whether an id is that of a section that holds items.
pub fn is_section(id: u8) -> bool
    ensures { result ≡ among sections id }
{
    // `matches!` becomes a jump by a table here, and a walk of small items takes a twentieth longer.
    id == 1 || id == 2 || id == 4 || id == 9 || id == 11
}

// Four bytes, low first.
fn word_of(a: u8, b: u8, c: u8, d: u8) -> usize
    ensures { result ≡ value_of (a, (b, (c, d))) }
{
    u32::from_le_bytes([a, b, c, d]) as usize
}

// The frame at a place, where one begins there: its section's id, and where its item ends.
pub fn frame_at(bytes: &[u8], at: usize) -> Option<(u8, usize)>
    ensures value { result ≡ frame_at bytes.now at }
    ensures within { IfSome result (λ f. f.0 < 16 × at + 5 ≤ f.1 × f.1 ≤ length bytes.now) }
{
    let [id, a, b, c, d, rest @ ..] = bytes.get(at..)? else {
        return None;
    };
    let size = word_of(*a, *b, *c, *d);
    if is_section(*id) && size <= ITEM_MOST.min(rest.len()) {
        return Some((*id, at + 5 + size));
    }
    None
}

// The frames of some bytes from a place on, one behind the other, up to where none begins: each one's section's id, and its item.
#[derive(Clone, Copy, Debug, PartialEq, Eq)]
pub struct Frames<'a> {
    pub bytes: &'a [u8],
    pub at: usize,
}

impl<'a> Frames<'a> {
    pub fn new(bytes: &'a [u8]) -> Frames<'a>
        ensures { (result.bytes.now ≡ bytes.now) × (result.at ≡ 0) }
    {
        Frames { bytes, at: 0 }
    }
}

impl<'a> Iterator for Frames<'a> {
    type Item = (u8, &'a [u8]);

    ghost next_gives = { frame_steps };

    ghost remaining = { λ s. at_most (length s.bytes.now - s.at) };

    fn next(&mut self) -> Option<(u8, &'a [u8])> {
        let (id, end) = frame_at(self.bytes, self.at)?;
        let item = &self.bytes[self.at + 5..end];
        self.at = end;
        Some((id, item))
    }
}

// A section's items: how many, and how many bytes they have.
#[derive(Clone, Copy, Debug, PartialEq, Eq)]
pub struct Items {
    pub count: usize,
    pub total: usize,
}

impl Items {
    // One more, of n bytes.
    fn add(&mut self, n: usize)
        requires { (self.old.count + 1 < 2 ^ 64) × (self.old.total + n < 2 ^ 64) }
        ensures { self.new ≡ one_more self.old n }
    {
        self.count += 1;
        self.total += n;
    }
}

// Every section's, by its id, of which there are fewer than 16.
pub type Tallies = [Items; 16];

// What a walk finds of each section, where the bytes are frames.
pub fn tally(frames: &[u8]) -> Option<Tallies>
    ensures { result ≡ tally_of (run frame frames.now) }
{
    let mut tallies = [Items { count: 0, total: 0 }; 16];
    let mut walk = Frames::new(frames);
    while let Some((id, item)) = walk.next() {
        tallies[id as usize].add(item.len());
    }
    if walk.at < frames.len() {
        return None;
    }
    Some(tallies)
}
