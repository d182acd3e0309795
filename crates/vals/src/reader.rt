// Reading value, storage and field types: what begins at a place of some bytes, and its words.
ghost use Rattle.std.specs.Prelude.{◌≡◌, [], ◌∷◌};
ghost use Rattle.format.specs.Basic.{flag};
ghost use Rattle.format.specs.Count.{Appends, silent};
ghost use Rattle.format.specs.Walk.{Walks};
ghost use Rattle.types.specs.Vals.{val_words, val_bytes, field_words, field_bytes};
ghost use Rattle.vals.specs.Told.{kind_told};

use format::{Done, Walk, append, append_all};
use refs::read_ref;

// A kind, and two unused words.
fn append_kind(k: u32, out: &mut [u32], s: Done) -> Done
    ensures { Appends (k ∷ 0 ∷ 0 ∷ []) out.old s out.new result }
{
    append_all(&[k, 0, 0], out, s)
}

// The kind of a storage type that is one byte.
fn plain_kind(b: u8) -> Option<u32>
    ensures { result ≡ kind_told b }
{
    match b {
        0x7F => Some(0),
        0x7E => Some(1),
        0x7D => Some(2),
        0x7C => Some(3),
        0x7B => Some(4),
        0x78 => Some(6),
        0x77 => Some(7),
        _ => None,
    }
}

pub fn read_val(b: &[u8], at: usize, out: &mut [u32], s: Done) -> Walk
    ensures { Walks val_bytes val_words.print silent b.now at out.old s out.new result }
{
    let x = *b.get(at)?;
    if x < 0x7B {
        let t = append(5, out, s);
        return read_ref(b, at, out, t);
    }
    let k = plain_kind(x)?;
    Some((at + 1, append_kind(k, out, s)))
}

pub fn read_mutable(b: &[u8], at: usize, out: &mut [u32], s: Done) -> Walk
    ensures { Walks flag flag.print silent b.now at out.old s out.new result }
{
    let m = *b.get(at)?;
    if 1 < m {
        return None;
    }
    Some((at + 1, append(u32::from(m), out, s)))
}

// Most storage types are one byte: their words and the field's last are appended at once.
pub fn read_field(b: &[u8], at: usize, out: &mut [u32], s: Done) -> Walk
    ensures { Walks field_bytes field_words.print silent b.now at out.old s out.new result }
{
    let Some(k) = plain_kind(*b.get(at)?) else {
        let (p, t) = read_val(b, at, out, s)?;
        return read_mutable(b, p, out, t);
    };
    let m = *b.get(at + 1)?;
    if 1 < m {
        return None;
    }
    Some((at + 2, append_all(&[k, 0, 0, u32::from(m)], out, s)))
}
