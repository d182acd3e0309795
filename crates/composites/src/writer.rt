// Writing composite types: their words at a place, and their bytes.
ghost use Rattle.format.specs.Count.{silent};
ghost use Rattle.format.specs.Walk.{Walks};
ghost use Rattle.leb128.proofs.Formats.{u32, index};
ghost use Rattle.words.specs.Words.{word};
ghost use Rattle.composites.specs.Composite.{func, body_words, body_bytes, inner_words, inner_bytes};

use format::{Done, Walk, append};
use lists::{Member, walk_list};
use numbers::append_index;
use vals::walk_field;

// Parameters and results.
fn walk_func(words: &[u32], at: usize, out: &mut [u8], s: Done) -> Walk
    ensures { Walks (body_words func) (body_bytes func).print silent words.now at out.old s out.new result }
{
    let (p, t) = walk_list(Member::Val, words, at, out, s)?;
    walk_list(Member::Val, words, p, out, t)
}

// The index of a continuation's function type.
fn walk_cont(words: &[u32], at: usize, out: &mut [u8], s: Done) -> Walk
    ensures { Walks word index.print silent words.now at out.old s out.new result }
{
    let x = *words.get(at)?;
    Some((at + 1, append_index(x, out, s)))
}

pub fn walk_inner(words: &[u32], at: usize, out: &mut [u8], s: Done) -> Walk
    ensures { Walks inner_words inner_bytes.print silent words.now at out.old s out.new result }
{
    match *words.get(at)? {
        0 => {
            let t = append(0x60, out, s);
            walk_func(words, at + 1, out, t)
        }
        1 => {
            let t = append(0x5E, out, s);
            walk_field(words, at + 1, out, t)
        }
        2 => {
            let t = append(0x5F, out, s);
            walk_list(Member::Field, words, at + 1, out, t)
        }
        3 => {
            let t = append(0x5D, out, s);
            walk_cont(words, at + 1, out, t)
        }
        _ => None,
    }
}
