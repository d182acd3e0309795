// Writing limits: their words at a place, and their bytes.
ghost use Rattle.format.specs.Count.{silent};
ghost use Rattle.format.specs.Walk.{Walks};
ghost use Rattle.limits.specs.Limits.{sizes_words, sizes_bytes, limits_words, limits_bytes};

use format::{Done, Walk, append};
use words::{walk_number64, walk_unused};

// The minimum, and the maximum or two unused words.
fn walk_sizes(maximum: bool, words: &[u32], at: usize, out: &mut [u8], s: Done) -> Walk
    ensures { Walks (sizes_words maximum) (sizes_bytes maximum).print silent words.now at out.old s out.new result }
{
    let (p, t) = walk_number64(words, at, out, s)?;
    if maximum {
        return walk_number64(words, p, out, t);
    }
    walk_unused(words, p, t)
}

// Flags: bit 0 says that there is a maximum, bit 1 shared, bit 2 64-bit.
pub fn walk_limits(words: &[u32], at: usize, out: &mut [u8], s: Done) -> Walk
    ensures { Walks limits_words limits_bytes.print silent words.now at out.old s out.new result }
{
    let flags = *words.get(at)?;
    if flags >> 3 != 0 {
        return None;
    }
    let t = append(flags as u8, out, s);
    walk_sizes(flags & 1 == 1, words, at + 1, out, t)
}
