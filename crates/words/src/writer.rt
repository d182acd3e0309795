// Writing numbers: their words at a place, and their bytes.
ghost use Rattle.std.specs.Prelude.{List, [], ℕ};
ghost use Rattle.format.specs.Count.{silent};
ghost use Rattle.format.specs.Repeats.{Calls, WalksList};
ghost use Rattle.format.specs.Walk.{Walks};
ghost use Rattle.leb128.specs.Leb.{uleb};
ghost use Rattle.leb128.proofs.Formats.{u32, u64};
ghost use Rattle.words.specs.Words.{word, unused};
ghost use Rattle.words.specs.Number64.{number64};

use format::{Done, Walk, walk_members};
use numbers::{append_u32, append_u64};

pub fn walk_index(words: &[u32], at: usize, out: &mut [u8], s: Done) -> Walk
    ensures { Walks word u32.print silent words.now at out.old s out.new result }
{
    let x = *words.get(at)?;
    Some((at + 1, append_u32(x, out, s)))
}

// A 64-bit number: low word, high word.
pub fn walk_number64(words: &[u32], at: usize, out: &mut [u8], s: Done) -> Walk
    ensures { Walks number64 u64.print silent words.now at out.old s out.new result }
{
    let &[low, high, ..] = words.get(at..)? else {
        return None;
    };
    let n = u64::from(low) + (u64::from(high) << 32);
    Some((at + 2, append_u64(n, out, s)))
}

// Two unused words, of which nothing is written.
pub fn walk_unused(words: &[u32], at: usize, s: Done) -> Walk
    ensures { (out : List ℕ) → Walks unused (λ x. []) silent words.now at out s out result }
{
    match words.get(at..)? {
        [0, 0, ..] => Some((at + 2, s)),
        _ => None,
    }
}

// A list: its count, and then so many members, each written by `walk` from where the one before ended. A count larger than what is left is answered at once,
// since each member takes a word.
pub fn walk_list<F: Fn(usize, &mut [u8], Done) -> Walk>(
    words: &[u32],
    at: usize,
    out: &mut [u8],
    s: Done,
    walk: F,
) -> Walk
    requires { F.IsAlwaysCallable walk }
    ensures { WalksList word uleb (Calls F.Fn walk) words.now at out.old s out.new result }
{
    let n = *words.get(at)?;
    let left = words.len() - at - 1;
    if left < n as usize {
        return None;
    }
    let t = append_u32(n, out, s);
    walk_members(n as usize, at + 1, out, t, walk)
}
