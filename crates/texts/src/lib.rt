// A record's texts: spans of the text that comes with it, the refusals that they draw (3, 4, 5), and what is written of them.
#![tactic(auto)]

mod reader;

ghost use Rattle.std.specs.Prelude.{◌≡◌, ◌+◌, ◌<◌, ◌≤◌, cond, length, MatchOption};
ghost use Rattle.format.specs.Count.{Adds, lowered};
ghost use Rattle.format.specs.Refusal.{number_of};
ghost use Rattle.leb128.proofs.Formats.{u32};
ghost use Rattle.format.specs.Sized.{sized};
ghost use Rattle.texts.specs.Text.{slice_of, is_kind, not_kind, past_of, refusal_of, named, constant, plain};

use format::{Done, Refusal, append_all};
use numbers::append_u32;
pub use reader::{append_span, find_data, find_expr};

// Two words of a record: where a text starts, and its length.
#[derive(Clone, Copy, Debug, PartialEq, Eq, Hash)]
pub struct Span {
    pub start: u32,
    pub len: u32,
}

impl Span {
    // Its bytes, where it ends within the text.
    fn of(self, text: &[u8]) -> Option<&[u8]>
        ensures { MatchOption result (length text.now < self.start + self.len) (λ b. (self.start + self.len ≤ length text.now) × (b.now ≡ slice_of text.now self)) }
    {
        let from = self.start as usize;
        let end = from + self.len as usize;
        text.get(from..end)
    }
}

// Its bytes.
fn append_slice(text: &[u8], at: Span, out: &mut [u8], s: Done) -> Done
    ensures { Adds (slice_of text.now at) (past_of text.now at) out.old s out.new result }
{
    match at.of(text) {
        Some(b) => append_all(b, out, s),
        None => s.lower(Refusal::BadText),
    }
}

// Data: its length, and its bytes.
pub fn append_data(text: &[u8], at: Span, out: &mut [u8], s: Done) -> Done
    ensures { Adds ((sized u32).print (slice_of text.now at)) (refusal_of text.now plain at) out.old s out.new result }
{
    match at.of(text) {
        Some(b) => {
            let t = append_u32(at.len, out, s);
            append_all(b, out, t)
        }
        None => append_u32(0, out, s).lower(Refusal::BadText),
    }
}

// Whether a span holds a name, or an expression. Where it ends past the text it holds no bytes, which are a name and no expression.
// A flag and no enum: `is_kind` and `not_kind` of specs/Text.antt, which stay as they are, take it.
fn is_kind(name: bool, text: &[u8], at: Span) -> bool
    ensures { result ≡ is_kind name (slice_of text.now at) }
{
    match at.of(text) {
        Some(b) if name => names::is_name(b),
        Some(b) => exprs::check_expr(b).is_ok(),
        None => name,
    }
}

// What a span draws that holds none.
fn refusal(name: bool) -> Refusal
    ensures { number_of result ≡ not_kind name }
{
    if name {
        Refusal::BadName
    } else {
        Refusal::BadExpr
    }
}

// A text is checked only where that could lower the refusal.
fn check(name: bool, text: &[u8], at: Span, t: Done) -> Done
    ensures { result ≡ cond (is_kind name (slice_of text.now at)) t (lowered t (not_kind name)) }
{
    let k = refusal(name);
    if t.low() <= u32::from(k.number()) || is_kind(name, text, at) {
        return t;
    }
    t.lower(k)
}

// A name: its length, and its bytes.
pub fn append_name(text: &[u8], at: Span, out: &mut [u8], s: Done) -> Done
    ensures { Adds ((sized u32).print (slice_of text.now at)) (refusal_of text.now named at) out.old s out.new result }
{
    let t = append_data(text, at, out, s);
    check(true, text, at, t)
}

// An expression: its bytes, which end in 0B.
pub fn append_expr(text: &[u8], at: Span, out: &mut [u8], s: Done) -> Done
    ensures { Adds (slice_of text.now at) (refusal_of text.now constant at) out.old s out.new result }
{
    let t = append_slice(text, at, out, s);
    check(false, text, at, t)
}
