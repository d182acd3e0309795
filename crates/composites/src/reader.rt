// Reading composite types: what begins at a place of some bytes, and its words.
ghost use Rattle.format.specs.Count.{silent};
ghost use Rattle.format.specs.Walk.{Walks};
ghost use Rattle.leb128.proofs.Formats.{u32, index};
ghost use Rattle.words.specs.Words.{word};
ghost use Rattle.composites.specs.Composite.{func, body_words, body_bytes, inner_words, inner_bytes};

use format::{Done, Walk, append};
use lists::{Member, read_list};
use vals::read_field;

// Parameters and results.
fn read_func(b: &[u8], at: usize, out: &mut [u32], s: Done) -> Walk
    ensures { Walks (body_bytes func) (body_words func).print silent b.now at out.old s out.new result }
{
    let (p, t) = read_list(Member::Val, b, at, out, s)?;
    read_list(Member::Val, b, p, out, t)
}

// The index of a continuation's function type.
fn read_cont(b: &[u8], at: usize, out: &mut [u32], s: Done) -> Walk
    ensures { Walks index word.print silent b.now at out.old s out.new result }
{
    let Some((v, p)) = numbers::decode_index(b, at) else {
        return None;
    };
    Some((p, append(v, out, s)))
}

pub fn read_inner(b: &[u8], at: usize, out: &mut [u32], s: Done) -> Walk
    ensures { Walks inner_bytes inner_words.print silent b.now at out.old s out.new result }
{
    match *b.get(at)? {
        0x60 => {
            let t = append(0, out, s);
            read_func(b, at + 1, out, t)
        }
        0x5E => {
            let t = append(1, out, s);
            read_field(b, at + 1, out, t)
        }
        0x5F => {
            let t = append(2, out, s);
            read_list(Member::Field, b, at + 1, out, t)
        }
        0x5D => {
            let t = append(3, out, s);
            read_cont(b, at + 1, out, t)
        }
        _ => None,
    }
}
