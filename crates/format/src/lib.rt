// Writing into the rest of a lent buffer, and counting what is written. The theory of formats that every item is defined by stands in specs/.
#![tactic(auto)]

mod refusal;

ghost use Rattle.std.specs.Prelude.{◌≡◌, [], ◌∷◌, ◌+◌};
ghost use Rattle.format.specs.Refusal.{number_of};
ghost use Rattle.format.specs.Write.{Writes};
ghost use Rattle.format.specs.Count.{Appends, counted, count_in, low_in, grown_by, lowered};
ghost use Rattle.format.specs.Repeats.{Calls, Repeats};

pub use refusal::Refusal;

// What a writer answers: how many numbers it wrote at the front of what it was lent, or that they do not fit and nothing was written.
pub type Written = Result<usize, Refusal>;

// The leaves: `out` is the rest of a buffer from the current end on.
pub fn put<T: Copy>(x: T, out: &mut [T]) -> Written
    ensures { Writes (x ∷ []) out.old out.new result }
{
    if out.is_empty() {
        return Err(Refusal::OutputShort);
    }
    out[0] = x;
    Ok(1)
}

pub fn copy<T: Copy>(from: &[T], out: &mut [T]) -> Written
    ensures { Writes from.now out.old out.new result }
{
    if out.len() < from.len() {
        return Err(Refusal::OutputShort);
    }
    out[..from.len()].copy_from_slice(from);
    Ok(from.len())
}

// Stands for any count above 65,536: no more than that is ever written.
const COUNT_PAST: usize = 65537;

// So many refusals there is room for below the count.
const LOW_ROOM: u64 = 16;

// Stands for none: it is above all that a text draws.
pub const NO_REFUSAL: u32 = 9;

// The count of a and b together.
pub fn more(a: usize, b: usize) -> usize
    ensures { result ≡ counted (a + b) }
{
    a.saturating_add(b).min(COUNT_PAST)
}

// How much was appended to a lent buffer, and the lowest refusal drawn so far, by its number. One number holds both, so that a walk hands it to the next in a register.
// Of one whose refusal is above NO_REFUSAL nothing is promised (`Has`, specs/Count.antt), and no walk makes one.
#[derive(Clone, Copy, Debug, PartialEq, Eq)]
pub struct Done {
    pub v: u64,
}

impl Done {
    // Nothing was appended yet.
    pub fn new(low: u32) -> Done
        ensures { result.v ≡ low }
    {
        Done { v: low as u64 }
    }

    pub fn count(self) -> usize
        ensures { result ≡ count_in self }
    {
        (self.v / LOW_ROOM) as usize
    }

    pub fn low(self) -> u32
        ensures { result ≡ low_in self }
    {
        (self.v % LOW_ROOM) as u32
    }

    // k more were appended.
    pub fn grown(self, k: usize) -> Done
        ensures { result.v ≡ grown_by self k }
    {
        // The count grows where it stands: to take it out and put it back would be on the way from each walk to the next.
        if more(self.count(), k) < COUNT_PAST {
            Done {
                v: self.v + LOW_ROOM * k as u64,
            }
        } else {
            Done {
                v: LOW_ROOM * COUNT_PAST as u64 + self.v % LOW_ROOM,
            }
        }
    }

    // A refusal is drawn.
    pub fn lower(self, r: Refusal) -> Done
        ensures { result ≡ lowered self (number_of r) }
    {
        let low = self.v % LOW_ROOM;
        Done {
            v: self.v - low + low.min(r.number() as u64),
        }
    }
}

// What a walk finds: the place behind what it read, and what is done; or nothing.
pub type Walk = Option<(usize, Done)>;

// The appenders carry the count: each lends its leaf the part from the current end on, which writes what there is room for, and answers as if there were room for all.
pub fn append<T: Copy>(x: T, out: &mut [T], s: Done) -> Done
    ensures { Appends (x ∷ []) out.old s out.new result }
{
    let at = s.count().min(out.len());
    let _ = put(x, &mut out[at..]);
    s.grown(1)
}

pub fn append_all<T: Copy>(from: &[T], out: &mut [T], s: Done) -> Done
    ensures { Appends from.now out.old s out.new result }
{
    let at = s.count().min(out.len());
    let _ = copy(from, &mut out[at..]);
    s.grown(from.len())
}

// n walks, each from where the one before ended, until one finds nothing.
pub fn walk_members<T, F: Fn(usize, &mut [T], Done) -> Walk>(
    n: usize,
    at: usize,
    out: &mut [T],
    s: Done,
    walk: F,
) -> Walk
    requires { F.IsAlwaysCallable walk }
    ensures { Repeats (Calls F.Fn walk) n at out.old s out.new result }
{
    let mut p = at;
    let mut t = s;
    for _ in 0..n {
        (p, t) = walk(p, out, t)?;
    }
    Some((p, t))
}
