// Reading limits: what begins at a place of some bytes, and its words.
ghost use Rattle.format.specs.Count.{silent};
ghost use Rattle.format.specs.Walk.{Walks};
ghost use Rattle.limits.specs.Limits.{sizes_words, sizes_bytes, limits_words, limits_bytes};

use format::{Done, Walk, append, append_all};
use words::read_number64;

// The minimum, and the maximum if there is one.
fn read_sizes(maximum: bool, b: &[u8], at: usize, out: &mut [u32], s: Done) -> Walk
    ensures { Walks (sizes_bytes maximum) (sizes_words maximum).print silent b.now at out.old s out.new result }
{
    let (p, t) = read_number64(b, at, out, s)?;
    if maximum {
        return read_number64(b, p, out, t);
    }
    Some((p, append_all(&[0, 0], out, t)))
}

// Flags: bit 0 says that there is a maximum, bit 1 shared, bit 2 64-bit.
pub fn read_limits(b: &[u8], at: usize, out: &mut [u32], s: Done) -> Walk
    ensures { Walks limits_bytes limits_words.print silent b.now at out.old s out.new result }
{
    let flags = *b.get(at)?;
    if flags >> 3 != 0 {
        return None;
    }
    let t = append(flags as u32, out, s);
    read_sizes(flags & 1 == 1, b, at + 1, out, t)
}
