// Where the texts of an item stand in its bytes, as spans of its record.
ghost use Rattle.std.specs.Prelude.{◌≡◌, ◌≤◌, length, drop};
ghost use Rattle.format.specs.Count.{Appends};
ghost use Rattle.format.specs.Sized.{sized};
ghost use Rattle.leb128.proofs.Formats.{u32};
ghost use Rattle.exprs.specs.Laws.{expr};
ghost use Rattle.texts.specs.Judge.{text_most};
ghost use Rattle.texts.specs.Spans.{span};
ghost use Rattle.texts.specs.Place.{span_at, sized_at, text_at};

use crate::Span;
use format::{Done, append_all};

// Data behind its length.
pub fn find_data(bytes: &[u8], at: usize) -> Option<Span>
    requires { length bytes.now ≤ text_most }
    ensures { result ≡ text_at (sized_at at) ((sized u32).parse (drop at bytes.now)) }
{
    let Some((n, p)) = numbers::decode_u32(bytes, at) else {
        return None;
    };
    if bytes.len() - p < n as usize {
        return None;
    }
    Some(Span {
        start: p as u32,
        len: n,
    })
}

// An expression, up to its 0B.
pub fn find_expr(bytes: &[u8], at: usize) -> Option<Span>
    requires { length bytes.now ≤ text_most }
    ensures { result ≡ text_at (span_at at) (expr.parse (drop at bytes.now)) }
{
    let n = exprs::expr_end(bytes.get(at..)?)?;
    Some(Span {
        start: at as u32,
        len: n as u32,
    })
}

pub fn append_span(v: Span, out: &mut [u32], s: Done) -> Done
    ensures { Appends (span.print v) out.old s out.new result }
{
    append_all(&[v.start, v.len], out, s)
}
