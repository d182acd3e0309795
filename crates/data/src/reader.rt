// Reading data segments: what begins at a place of some bytes, and its words.
ghost use Rattle.std.specs.Prelude.{◌≤◌, length};
ghost use Rattle.format.specs.Count.{silent};
ghost use Rattle.format.specs.Walk.{Walks};
ghost use Rattle.texts.specs.Judge.{text_most};
ghost use Rattle.words.specs.Words.{word};
ghost use Rattle.parts.specs.Reading.{Reading};
ghost use Rattle.data.specs.Target.{memory_index_bytes, active, target_of, target};
ghost use Rattle.data.specs.Segment.{data_section};

use format::{Done, Walk, append, append_all};
use parts::{read_data, read_expr};

// 00 is memory 0, 02 another one.
fn read_memory(b: &[u8], at: usize, out: &mut [u32], s: Done) -> Walk
    ensures { Walks memory_index_bytes word.print silent b.now at out.old s out.new result }
{
    match *b.get(at)? {
        0 => Some((at + 1, append(0, out, s))),
        2 => {
            let Some((m, p)) = numbers::decode_u32(b, at + 1) else {
                return None;
            };
            if m == 0 {
                return None;
            }
            Some((p, append(m, out, s)))
        }
        _ => None,
    }
}

// A memory and the offset.
fn read_active(b: &[u8], at: usize, out: &mut [u32], s: Done) -> Walk
    requires { length b.now ≤ text_most }
    ensures { Reading (target_of active) b.now at out.old s out.new result }
{
    let (p, t) = read_memory(b, at, out, s)?;
    read_expr(b, p, out, t)
}

// 01 is passive, which has no memory and no offset.
fn read_target(b: &[u8], at: usize, out: &mut [u32], s: Done) -> Walk
    requires { length b.now ≤ text_most }
    ensures { Reading target b.now at out.old s out.new result }
{
    if *b.get(at)? == 1 {
        return Some((at + 1, append_all(&[0, 0, 0, 0], out, s)));
    }
    let t = append(1, out, s);
    read_active(b, at, out, t)
}

// Reads the item at a place and appends the words behind the 11.
pub fn walk_bytes(b: &[u8], at: usize, out: &mut [u32], s: Done) -> Walk
    requires { length b.now ≤ text_most }
    ensures { Reading data_section b.now at out.old s out.new result }
{
    let (p, t) = read_target(b, at, out, s)?;
    read_data(b, p, out, t)
}
