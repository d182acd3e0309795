// Reading texts: what begins at a place of some bytes, and its span.
ghost use Rattle.std.specs.Prelude.{◌≡◌, ◌≤◌, length, drop};
ghost use Rattle.texts.specs.Judge.{text_most};
ghost use Rattle.texts.specs.Place.{sized_at, text_at};
ghost use Rattle.parts.specs.Text.{name, name_bytes, expression, content};
ghost use Rattle.parts.specs.Reading.{Reading, FoundReads};

use format::{Done, Walk};
use texts::{Span, append_span, find_data, find_expr};

// Where a name stands: data that is UTF-8.
pub fn find_name(b: &[u8], at: usize) -> Option<Span>
    requires { length b.now ≤ text_most }
    ensures { result ≡ text_at (sized_at at) (name_bytes.parse (drop at b.now)) }
{
    let v = find_data(b, at)?;
    let from = v.start as usize;
    let end = from + v.len as usize;
    if names::is_name(&b[from..end]) {
        return Some(v);
    }
    None
}

// A text that was found: its span, and where it ends.
fn append_found(found: Option<Span>, out: &mut [u32], s: Done) -> Walk
    ensures { FoundReads found out.old s out.new result }
{
    let v = found?;
    Some((v.start as usize + v.len as usize, append_span(v, out, s)))
}

pub fn read_name(b: &[u8], at: usize, out: &mut [u32], s: Done) -> Walk
    requires { length b.now ≤ text_most }
    ensures { Reading name b.now at out.old s out.new result }
{
    append_found(find_name(b, at), out, s)
}

pub fn read_expr(b: &[u8], at: usize, out: &mut [u32], s: Done) -> Walk
    requires { length b.now ≤ text_most }
    ensures { Reading expression b.now at out.old s out.new result }
{
    append_found(find_expr(b, at), out, s)
}

pub fn read_data(b: &[u8], at: usize, out: &mut [u32], s: Done) -> Walk
    requires { length b.now ≤ text_most }
    ensures { Reading content b.now at out.old s out.new result }
{
    append_found(find_data(b, at), out, s)
}
