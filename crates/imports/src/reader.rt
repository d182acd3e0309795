// Reading imports: what begins at a place of some bytes, and its words.
ghost use Rattle.std.specs.Prelude.{◌≡◌, ◌∷◌, ◌≤◌, length, drop};
ghost use Rattle.format.specs.Count.{Appends};
ghost use Rattle.texts.specs.Judge.{text_most};
ghost use Rattle.texts.specs.Spans.{span};
ghost use Rattle.parts.specs.Both.{both};
ghost use Rattle.parts.specs.Listed.{listed};
ghost use Rattle.parts.specs.Reading.{Reading};
ghost use Rattle.imports.specs.Entity.{entity};
ghost use Rattle.imports.specs.Forms.{member, Import, Name};
ghost use Rattle.imports.specs.Compact.{form_at};
ghost use Rattle.imports.specs.Section.{import_section};

use crate::Form;
use format::{Done, Walk, append};
use parts::{find_name, read_name};
use tables::{read_global_type, read_memory_type, read_table_type, read_tag_type};
use texts::{Span, append_span};
use words::{read_index, read_list};

// The sort, and what it is a sort of.
fn read_entity(b: &[u8], at: usize, out: &mut [u32], s: Done) -> Walk
    ensures { Reading entity b.now at out.old s out.new result }
{
    let sort = *b.get(at)?;
    let t = append(sort as u32, out, s);
    match sort {
        0x00 => read_index(b, at + 1, out, t),
        0x01 => read_table_type(b, at + 1, out, t),
        0x02 => read_memory_type(b, at + 1, out, t),
        0x03 => read_global_type(b, at + 1, out, t),
        0x04 => read_tag_type(b, at + 1, out, t),
        0x20 => read_index(b, at + 1, out, t),
        _ => None,
    }
}

// A name, and its entity.
fn read_import(b: &[u8], at: usize, out: &mut [u32], s: Done) -> Walk
    requires { length b.now ≤ text_most }
    ensures { Reading (member Import) b.now at out.old s out.new result }
{
    let (p, t) = read_name(b, at, out, s)?;
    read_entity(b, p, out, t)
}

fn read_imports(b: &[u8], at: usize, out: &mut [u32], s: Done) -> Walk
    requires { length b.now ≤ text_most }
    ensures { Reading (listed (member Import)) b.now at out.old s out.new result }
{
    read_list(b, at, out, s, move |p, out, t| read_import(b, p, out, t))
}

fn read_names(b: &[u8], at: usize, out: &mut [u32], s: Done) -> Walk
    requires { length b.now ≤ text_most }
    ensures { Reading (listed (member Name)) b.now at out.old s out.new result }
{
    read_list(b, at, out, s, move |p, out, t| read_name(b, p, out, t))
}

// An entity, and a list of names, behind 00 7E.
fn read_compact2(b: &[u8], at: usize, out: &mut [u32], s: Done) -> Walk
    requires { length b.now ≤ text_most }
    ensures { Reading (both entity (listed (member Name))) b.now at out.old s out.new result }
{
    let (p, t) = read_entity(b, at, out, s)?;
    read_names(b, p, out, t)
}

// The form of what stands behind a module's name: 00 7F, 00 7E, or a single import.
fn form_at(b: &[u8], at: usize) -> Form
    ensures { result ≡ form_at (drop at b.now) }
{
    match b.get(at..) {
        Some([0x00, 0x7F, ..]) => Form::Compact1,
        Some([0x00, 0x7E, ..]) => Form::Compact2,
        _ => Form::Single,
    }
}

// The form, and the span of the module's name.
fn append_head(form: u32, v: Span, out: &mut [u32], s: Done) -> Done
    ensures { Appends (form ∷ span.print v) out.old s out.new result }
{
    let t = append(form, out, s);
    append_span(v, out, t)
}

// Reads the item at a place and appends the words behind the 2.
pub fn walk_bytes(b: &[u8], at: usize, out: &mut [u32], s: Done) -> Walk
    requires { length b.now ≤ text_most }
    ensures { Reading import_section b.now at out.old s out.new result }
{
    let v = find_name(b, at)?;
    let p = v.start as usize + v.len as usize;
    match form_at(b, p) {
        Form::Single => {
            let t = append_head(0, v, out, s);
            read_import(b, p, out, t)
        }
        Form::Compact1 => {
            let t = append_head(1, v, out, s);
            read_imports(b, p + 2, out, t)
        }
        Form::Compact2 => {
            let t = append_head(2, v, out, s);
            read_compact2(b, p + 2, out, t)
        }
    }
}
