// Reading numbers: what begins at a place of some bytes, and its words.
ghost use Rattle.std.specs.Prelude.{[], ◌∷◌};
ghost use Rattle.format.specs.Count.{silent};
ghost use Rattle.format.specs.Repeats.{Calls, WalksList};
ghost use Rattle.format.specs.Walk.{Walks};
ghost use Rattle.leb128.proofs.Formats.{u32, u64};
ghost use Rattle.words.specs.Words.{word};
ghost use Rattle.words.specs.Number64.{number64};

use format::{Done, Walk, append, walk_members};

pub fn read_index(b: &[u8], at: usize, out: &mut [u32], s: Done) -> Walk
    ensures { Walks u32 word.print silent b.now at out.old s out.new result }
{
    let Some((v, p)) = numbers::decode_u32(b, at) else {
        return None;
    };
    Some((p, append(v, out, s)))
}

// A 64-bit number, as low word, high word.
pub fn read_number64(b: &[u8], at: usize, out: &mut [u32], s: Done) -> Walk
    ensures { Walks u64 number64.print silent b.now at out.old s out.new result }
{
    let Some((v, p)) = numbers::decode_u64(b, at) else {
        return None;
    };
    let t = append((v & 0xFFFF_FFFF) as u32, out, s);
    Some((p, append((v >> 32) as u32, out, t)))
}

// A list: its count, and then so many members, each read by `read` from where the one before ended. A count larger than what is left is answered at once, since
// each member takes a byte.
pub fn read_list<F: Fn(usize, &mut [u32], Done) -> Walk>(
    b: &[u8],
    at: usize,
    out: &mut [u32],
    s: Done,
    read: F,
) -> Walk
    requires { F.IsAlwaysCallable read }
    ensures { WalksList u32 (λ n. n ∷ []) (Calls F.Fn read) b.now at out.old s out.new result }
{
    let Some((n, p)) = numbers::decode_u32(b, at) else {
        return None;
    };
    let left = b.len() - p;
    if left < n as usize {
        return None;
    }
    let t = append(n, out, s);
    walk_members(n as usize, p, out, t, read)
}
