// A line's answer and its line feed, behind the answers that wait to be written.
ghost use Rattle.std.specs.Prelude.{◌+◌, ◌*◌, ◌≤◌, length};
ghost use Rattle.replies.specs.Run.{longest, Ready, answer_to, Replied, Ends};

use crate::Run;
use lines::answer;

fn reply(line: &[u8], r: Run, store: &mut [u8], buffer: &mut [u8], out: &mut [u8]) -> Run
    requires { r.at + (3 + 2 * length buffer.old) ≤ length out.old }
    ensures { Replied r (answer_to r line.now store.old buffer.old out.old) out.old result store.new buffer.new out.new }
{
    let at = r.at;
    let a = answer(line, r.state, store, buffer, &mut out[at..]);
    let Some(n) = a.line else {
        return r;
    };
    let end = at + n;
    out[end] = b'\n';
    Run {
        state: a.state,
        n: 0,
        at: end + 1,
    }
}

// The line that is gathered is at its end.
pub fn end_line(r: Run, line: &[u8], store: &mut [u8], buffer: &mut [u8], out: &mut [u8]) -> Run
    requires ready { Ready r line.now store.old buffer.old out.old }
    requires room { r.at + longest ≤ length out.old }
    ensures { Ends r line.now store.old buffer.old out.old result store.new buffer.new out.new }
{
    reply(&line[..r.n], r, store, buffer, out)
}
