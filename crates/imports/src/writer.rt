// Writing imports: their words at a place, and their bytes.
ghost use Rattle.format.specs.Count.{silent};
ghost use Rattle.format.specs.Walk.{Walks};
ghost use Rattle.parts.specs.Listed.{listed};
ghost use Rattle.parts.specs.Writing.{Writing};
ghost use Rattle.imports.specs.Entity.{entity_words, entity_bytes};
ghost use Rattle.imports.specs.Forms.{rest, member, Import, Name};
ghost use Rattle.imports.specs.declared.Form.TheVariants.{Compact1, Compact2};
ghost use Rattle.imports.specs.Section.{import_section};

use format::{Done, Walk, append};
use parts::walk_name;
use tables::{walk_global_type, walk_memory_type, walk_table_type, walk_tag_type};
use words::{walk_index, walk_list};

// The sort, and what it is a sort of.
fn walk_entity(words: &[u32], at: usize, out: &mut [u8], s: Done) -> Walk
    ensures { Walks entity_words entity_bytes.print silent words.now at out.old s out.new result }
{
    let sort = *words.get(at)?;
    if 0x20 < sort {
        return None;
    }
    let t = append(sort as u8, out, s);
    match sort {
        0x00 => walk_index(words, at + 1, out, t),
        0x01 => walk_table_type(words, at + 1, out, t),
        0x02 => walk_memory_type(words, at + 1, out, t),
        0x03 => walk_global_type(words, at + 1, out, t),
        0x04 => walk_tag_type(words, at + 1, out, t),
        0x20 => walk_index(words, at + 1, out, t),
        _ => None,
    }
}

// A name, and its entity.
fn walk_import(words: &[u32], at: usize, text: &[u8], out: &mut [u8], s: Done) -> Walk
    ensures { Writing (member Import) text.now words.now at out.old s out.new result }
{
    let (p, t) = walk_name(words, at, text, out, s)?;
    walk_entity(words, p, out, t)
}

fn walk_imports(words: &[u32], at: usize, text: &[u8], out: &mut [u8], s: Done) -> Walk
    ensures { Writing (listed (member Import)) text.now words.now at out.old s out.new result }
{
    walk_list(words, at, out, s, move |p, out, t| {
        walk_import(words, p, text, out, t)
    })
}

fn walk_names(words: &[u32], at: usize, text: &[u8], out: &mut [u8], s: Done) -> Walk
    ensures { Writing (listed (member Name)) text.now words.now at out.old s out.new result }
{
    walk_list(words, at, out, s, move |p, out, t| {
        walk_name(words, p, text, out, t)
    })
}

// 00 7F, and a list of names with their entities.
fn walk_compact1(words: &[u32], at: usize, text: &[u8], out: &mut [u8], s: Done) -> Walk
    ensures { Writing (rest Compact1) text.now words.now at out.old s out.new result }
{
    let t = append(0x00, out, s);
    let u = append(0x7F, out, t);
    walk_imports(words, at, text, out, u)
}

// 00 7E, the entity of all, and a list of names.
fn walk_compact2(words: &[u32], at: usize, text: &[u8], out: &mut [u8], s: Done) -> Walk
    ensures { Writing (rest Compact2) text.now words.now at out.old s out.new result }
{
    let t = append(0x00, out, s);
    let u = append(0x7E, out, t);
    let (p, v) = walk_entity(words, at, out, u)?;
    walk_names(words, p, text, out, v)
}

// Reads the words behind the 2 and appends the item.
pub fn walk_words(words: &[u32], at: usize, text: &[u8], out: &mut [u8], s: Done) -> Walk
    ensures { Writing import_section text.now words.now at out.old s out.new result }
{
    let form = *words.get(at)?;
    let (p, t) = walk_name(words, at + 1, text, out, s)?;
    match form {
        0 => walk_import(words, p, text, out, t),
        1 => walk_compact1(words, p, text, out, t),
        2 => walk_compact2(words, p, text, out, t),
        _ => None,
    }
}
