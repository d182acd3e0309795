// Writing value, storage and field types: their words at a place, and their bytes.
ghost use Rattle.std.specs.Prelude.{◌≡◌, [], ◌∷◌};
ghost use Rattle.format.specs.Basic.{find, flag};
ghost use Rattle.format.specs.Count.{silent};
ghost use Rattle.format.specs.Walk.{Walks};
ghost use Rattle.words.specs.Words.{unused};
ghost use Rattle.types.specs.Vals.{nums, num_kind, num_byte, val_words, val_bytes, storage_words, storage_bytes, field_words, field_bytes};
ghost use Rattle.vals.specs.Told.{code_told};

use format::{Done, Walk, append};
use refs::walk_ref;

// Two unused words, and the byte of a type that has no more.
fn walk_unused(words: &[u32], at: usize, b: u8, out: &mut [u8], s: Done) -> Walk
    ensures { Walks unused (λ x. b ∷ []) silent words.now at out.old s out.new result }
{
    match words.get(at..)? {
        [0, 0, ..] => Some((at + 2, append(b, out, s))),
        _ => None,
    }
}

// The byte of a number or vector type by its kind.
fn num_byte(k: u32) -> Option<u8>
    ensures { result ≡ code_told num_byte (find num_kind nums k) }
{
    match k {
        0 => Some(0x7F),
        1 => Some(0x7E),
        2 => Some(0x7D),
        3 => Some(0x7C),
        4 => Some(0x7B),
        _ => None,
    }
}

pub fn walk_val(words: &[u32], at: usize, out: &mut [u8], s: Done) -> Walk
    ensures { Walks val_words val_bytes.print silent words.now at out.old s out.new result }
{
    let k = *words.get(at)?;
    if k == 5 {
        return walk_ref(words, at + 1, out, s);
    }
    walk_unused(words, at + 1, num_byte(k)?, out, s)
}

pub fn walk_storage(words: &[u32], at: usize, out: &mut [u8], s: Done) -> Walk
    ensures { Walks storage_words storage_bytes.print silent words.now at out.old s out.new result }
{
    match *words.get(at)? {
        6 => walk_unused(words, at + 1, 0x78, out, s),
        7 => walk_unused(words, at + 1, 0x77, out, s),
        _ => walk_val(words, at, out, s),
    }
}

// Mutable or not: 0 or 1, as a word and as a byte.
pub fn walk_mutable(words: &[u32], at: usize, out: &mut [u8], s: Done) -> Walk
    ensures { Walks flag flag.print silent words.now at out.old s out.new result }
{
    let b = *words.get(at)?;
    if 1 < b {
        return None;
    }
    Some((at + 1, append(b as u8, out, s)))
}

pub fn walk_field(words: &[u32], at: usize, out: &mut [u8], s: Done) -> Walk
    ensures { Walks field_words field_bytes.print silent words.now at out.old s out.new result }
{
    let (p, t) = walk_storage(words, at, out, s)?;
    walk_mutable(words, p, out, t)
}
