// Lines out of pieces: what is gathered of a line, and a line that ends.
ghost use Rattle.std.specs.Prelude.{◌≡◌, ◌+◌, ◌≤◌, length, drop};
ghost use Rattle.replies.specs.Input.{feed_at};
ghost use Rattle.replies.specs.Run.{longest, Ready, Gathered, Takes, Closes};

use crate::reply::end_line;
use crate::{Heard, Run};
use memchr::memchr;

// The longest answer: two digits, those of a module that fills its buffer, and the line feed.
const LONGEST: usize = 65539;

// The characters of a part of a line, behind those that are gathered. Those of a line that is too long are not kept.
fn gather(part: &[u8], r: Run, line: &mut [u8]) -> Run
    requires { r.n ≤ length line.old }
    ensures { Gathered r part.now line.old line.new result }
{
    let n = r.n;
    let m = part.len().min(line.len() - n);
    let _ = format::copy(&part[..m], &mut line[n..]);
    Run { n: n + m, ..r }
}

// Where the next line feed of a piece stands from a place on, or the piece's end.
fn line_end(piece: &[u8], from: usize) -> usize
    requires { from ≤ length piece.now }
    ensures within { result ≤ length piece.now }
    ensures value { result ≡ from + feed_at (drop from piece.now) }
{
    match memchr(b'\n', &piece[from..]) {
        Some(n) => from + n,
        None => piece.len(),
    }
}

// A line may have begun in an earlier piece, and may go on in a later one. The piece is heard to its end, or to the end of a line whose answer might not fit
// behind those that wait: it is heard from there on once they are written.
pub fn take_piece(
    piece: &[u8],
    r: Run,
    line: &mut [u8],
    store: &mut [u8],
    buffer: &mut [u8],
    out: &mut [u8],
) -> Heard
    requires { Ready r line.old store.old buffer.old out.old }
    ensures { Takes piece.now r line.old store.old buffer.old out.old result.run result.to line.new store.new buffer.new out.new }
{
    let mut run = r;
    let mut i = 0;
    // From one line feed to the next: no place is counted up.
    while i < piece.len() {
        let end = line_end(piece, i);
        run = gather(&piece[i..end], run, line);
        if piece.len() <= end {
            return Heard { run, to: end };
        }
        if out.len() - run.at < LONGEST {
            return Heard { run, to: end };
        }
        run = end_line(run, line, store, buffer, out);
        i = end + 1;
    }
    Heard { run, to: i }
}

// A last line may lack its line feed; nothing after the last line feed is no line.
pub fn end_input(r: Run, line: &[u8], store: &mut [u8], buffer: &mut [u8], out: &mut [u8]) -> Run
    requires ready { Ready r line.now store.old buffer.old out.old }
    requires room { r.at + longest ≤ length out.old }
    ensures { Closes r line.now store.old buffer.old out.old result store.new buffer.new out.new }
{
    if r.n == 0 {
        return r;
    }
    end_line(r, line, store, buffer, out)
}
