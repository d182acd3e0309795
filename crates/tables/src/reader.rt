// Reading tables and their like: what begins at a place of some bytes, and its words.
ghost use Rattle.std.specs.Prelude.{◌≤◌, length};
ghost use Rattle.format.specs.Count.{silent};
ghost use Rattle.format.specs.Walk.{Walks};
ghost use Rattle.texts.specs.Judge.{text_most};
ghost use Rattle.parts.specs.Text.{expression};
ghost use Rattle.parts.specs.Both.{both};
ghost use Rattle.parts.specs.Reading.{Reading};
ghost use Rattle.tables.specs.TableType.{table_words, table_bytes, memory_words, memory_bytes};
ghost use Rattle.tables.specs.GlobalType.{global_words, global_bytes};
ghost use Rattle.tables.specs.TagType.{tag_words, tag_bytes};
ghost use Rattle.tables.specs.Table.{bare_words, table_type, table_section};

use format::{Done, Walk, append};
use limits::read_limits;
use parts::read_expr;
use refs::read_ref;
use texts::{Span, append_span};
use vals::{read_mutable, read_val};

pub fn read_memory_type(b: &[u8], at: usize, out: &mut [u32], s: Done) -> Walk
    ensures { Walks memory_bytes memory_words.print silent b.now at out.old s out.new result }
{
    read_limits(b, at, out, s)
}

pub fn read_table_type(b: &[u8], at: usize, out: &mut [u32], s: Done) -> Walk
    ensures { Walks table_bytes table_words.print silent b.now at out.old s out.new result }
{
    let (p, t) = read_ref(b, at, out, s)?;
    read_limits(b, p, out, t)
}

pub fn read_global_type(b: &[u8], at: usize, out: &mut [u32], s: Done) -> Walk
    ensures { Walks global_bytes global_words.print silent b.now at out.old s out.new result }
{
    let (p, t) = read_val(b, at, out, s)?;
    read_mutable(b, p, out, t)
}

// 00 says that it is an exception.
pub fn read_tag_type(b: &[u8], at: usize, out: &mut [u32], s: Done) -> Walk
    ensures { Walks tag_bytes tag_words.print silent b.now at out.old s out.new result }
{
    if *b.get(at)? != 0 {
        return None;
    }
    let Some((x, p)) = numbers::decode_u32(b, at + 1) else {
        return None;
    };
    Some((p, append(x, out, s)))
}

// A table type, and two unused words behind its own.
fn read_bare(b: &[u8], at: usize, out: &mut [u32], s: Done) -> Walk
    ensures { Walks table_bytes bare_words.print silent b.now at out.old s out.new result }
{
    let (p, t) = read_table_type(b, at, out, s)?;
    let none = Span { start: 0, len: 0 };
    Some((p, append_span(none, out, t)))
}

// A table type, and the expression of its initial value.
fn read_init(b: &[u8], at: usize, out: &mut [u32], s: Done) -> Walk
    requires { length b.now ≤ text_most }
    ensures { Reading (both table_type expression) b.now at out.old s out.new result }
{
    let (p, t) = read_table_type(b, at, out, s)?;
    read_expr(b, p, out, t)
}

// Reads the item at a place and appends the words behind the 4.
pub fn walk_bytes(b: &[u8], at: usize, out: &mut [u32], s: Done) -> Walk
    requires { length b.now ≤ text_most }
    ensures { Reading table_section b.now at out.old s out.new result }
{
    if *b.get(at)? != 0x40 {
        let t = append(0, out, s);
        return read_bare(b, at, out, t);
    }
    if *b.get(at + 1)? != 0x00 {
        return None;
    }
    let t = append(1, out, s);
    read_init(b, at + 2, out, t)
}
