// Hex lines: each is answered by one line.
#![tactic(auto)]

mod tell;

ghost use Rattle.std.specs.Prelude.{◌≡◌};
ghost use Rattle.lines.specs.Answer.{outcome, answering};

use hex_text::put_answer;
use tell::tell_line;
use thriftbell::State;

// The state behind a line, and how many characters the answer line has; none where there is no room for the longest answer, and then nothing was done.
#[derive(Clone, Copy, Debug, PartialEq, Eq)]
pub struct Reply {
    pub state: State,
    pub line: Option<usize>,
}

pub fn answer(
    line: &[u8],
    state: State,
    store: &mut [u8],
    buffer: &mut [u8],
    out: &mut [u8],
) -> Reply
    ensures { outcome result store.new buffer.new out.new ≡ answering state store.old buffer.old out.old line.now }
{
    if out.len() / 2 <= buffer.len() {
        return Reply { state, line: None };
    }
    let t = tell_line(line, state, store, buffer);
    let (number, n) = t.numbers();
    let m = put_answer(number, &buffer[..n], out);
    Reply {
        state: t.state,
        line: Some(m),
    }
}
