// Writing tables and their like: their words at a place, and their bytes.
ghost use Rattle.std.specs.Prelude.{true};
ghost use Rattle.format.specs.Count.{silent};
ghost use Rattle.format.specs.Walk.{Walks};
ghost use Rattle.parts.specs.Writing.{Writing};
ghost use Rattle.tables.specs.TableType.{table_words, table_bytes, memory_words, memory_bytes};
ghost use Rattle.tables.specs.GlobalType.{global_words, global_bytes};
ghost use Rattle.tables.specs.TagType.{tag_words, tag_bytes};
ghost use Rattle.tables.specs.Table.{bare_words, form, table_section};

use format::{Done, Walk, append};
use limits::walk_limits;
use numbers::append_u32;
use parts::walk_expr;
use refs::walk_ref;
use vals::{walk_mutable, walk_val};
use words::walk_unused;

pub fn walk_memory_type(words: &[u32], at: usize, out: &mut [u8], s: Done) -> Walk
    ensures { Walks memory_words memory_bytes.print silent words.now at out.old s out.new result }
{
    walk_limits(words, at, out, s)
}

pub fn walk_table_type(words: &[u32], at: usize, out: &mut [u8], s: Done) -> Walk
    ensures { Walks table_words table_bytes.print silent words.now at out.old s out.new result }
{
    let (p, t) = walk_ref(words, at, out, s)?;
    walk_limits(words, p, out, t)
}

pub fn walk_global_type(words: &[u32], at: usize, out: &mut [u8], s: Done) -> Walk
    ensures { Walks global_words global_bytes.print silent words.now at out.old s out.new result }
{
    let (p, t) = walk_val(words, at, out, s)?;
    walk_mutable(words, p, out, t)
}

// 00 says that it is an exception.
pub fn walk_tag_type(words: &[u32], at: usize, out: &mut [u8], s: Done) -> Walk
    ensures { Walks tag_words tag_bytes.print silent words.now at out.old s out.new result }
{
    let x = *words.get(at)?;
    let t = append(0x00, out, s);
    Some((at + 1, append_u32(x, out, t)))
}

// A table type, and the two unused words of a table without an initial value.
fn walk_bare(words: &[u32], at: usize, out: &mut [u8], s: Done) -> Walk
    ensures { Walks bare_words table_bytes.print silent words.now at out.old s out.new result }
{
    let (p, t) = walk_table_type(words, at, out, s)?;
    walk_unused(words, p, t)
}

// 40 00, a table type, and the span of its initial value.
fn walk_init(words: &[u32], at: usize, text: &[u8], out: &mut [u8], s: Done) -> Walk
    ensures { Writing (form true) text.now words.now at out.old s out.new result }
{
    let t = append(0x40, out, s);
    let u = append(0x00, out, t);
    let (p, v) = walk_table_type(words, at, out, u)?;
    walk_expr(words, p, text, out, v)
}

// Reads the words behind the 4 and appends the item.
pub fn walk_words(words: &[u32], at: usize, text: &[u8], out: &mut [u8], s: Done) -> Walk
    ensures { Writing table_section text.now words.now at out.old s out.new result }
{
    match *words.get(at)? {
        0 => walk_bare(words, at + 1, out, s),
        1 => walk_init(words, at + 1, text, out, s),
        _ => None,
    }
}
