// Writing texts: the span at a place of a record, and what is written of it.
ghost use Rattle.std.specs.Prelude.{◌≡◌, drop};
ghost use Rattle.texts.specs.Spans.{span};
ghost use Rattle.parts.specs.Text.{span_of, name, expression, content};
ghost use Rattle.parts.specs.Writing.{Writing};

use format::{Done, Walk};
use texts::{Span, append_data, append_expr, append_name};

fn find_span(words: &[u32], at: usize) -> Option<Span>
    ensures { result ≡ span_of (span.parse (drop at words.now)) }
{
    let &[start, len, ..] = words.get(at..)? else {
        return None;
    };
    Some(Span { start, len })
}

// The span of a name.
pub fn walk_name(words: &[u32], at: usize, text: &[u8], out: &mut [u8], s: Done) -> Walk
    ensures { Writing name text.now words.now at out.old s out.new result }
{
    let v = find_span(words, at)?;
    Some((at + 2, append_name(text, v, out, s)))
}

// The span of an expression.
pub fn walk_expr(words: &[u32], at: usize, text: &[u8], out: &mut [u8], s: Done) -> Walk
    ensures { Writing expression text.now words.now at out.old s out.new result }
{
    let v = find_span(words, at)?;
    Some((at + 2, append_expr(text, v, out, s)))
}

// The span of data.
pub fn walk_data(words: &[u32], at: usize, text: &[u8], out: &mut [u8], s: Done) -> Walk
    ensures { Writing content text.now words.now at out.old s out.new result }
{
    let v = find_span(words, at)?;
    Some((at + 2, append_data(text, v, out, s)))
}
