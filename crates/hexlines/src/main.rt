// The hex-line program: each line of standard input is answered by one line of standard output.
#![tactic(auto)]

ghost use Rattle.std.specs.Prelude.{◌≡◌, ◌≤◌, length, IfSome};
ghost use Rattle.replies.specs.Input.{kept_most};
ghost use Rattle.replies.specs.Run.{store_long, buffer_long, longest, Ready, HearsAll};

use replies::{Run, end_input, take_piece};
use std::io::{Print, Read};
use thriftbell::State;

// Whether all of some bytes was written.
fn is_written<W: Print>(to: &W, bytes: &[u8]) -> bool {
    to.write_all(bytes).is_ok()
}

// How many bytes of the input now stand in a piece; none where reading failed, which is said.
fn read_piece<I: Read, E: Print>(input: &mut I, errors: &E, piece: &mut [u8]) -> Option<usize>
    ensures { IfSome result (λ n. n ≤ length piece.new) }
{
    let got = input.read(piece).ok();
    if got.is_none() {
        is_written(errors, b"hexlines: reading failed\n");
    }
    got
}

// The run behind all of a piece, and whether what was said is written.
#[derive(Clone, Copy, Debug, PartialEq, Eq)]
struct Turn {
    run: Run,
    ok: bool,
}

// All of a piece, part by part: what was said to each is written before the next is heard, and nothing waits in the end.
fn hear_piece<W: Print>(
    output: &W,
    piece: &[u8],
    r: Run,
    line: &mut [u8],
    store: &mut [u8],
    buffer: &mut [u8],
    out: &mut [u8],
) -> Turn
    requires { Ready r line.old store.old buffer.old out.old × (r.at ≡ 0) }
    ensures { HearsAll piece.now r line.old store.old buffer.old out.old result.run result.ok line.new store.new buffer.new out.new }
{
    let mut run = r;
    let mut i = 0;
    // By as much as was heard each time.
    while i < piece.len() {
        let h = take_piece(&piece[i..], run, line, store, buffer, out);
        let ok = is_written(output, &out[0..h.run.at]);
        run = Run { at: 0, ..h.run };
        if !ok {
            return Turn { run, ok: false };
        }
        i += h.to;
    }
    Turn { run, ok: true }
}

// Nothing says that the input ends, so the turns are counted to a number that no run uses up. Before each read nothing waits to be written.
fn answer_all<I: Read, W: Print, E: Print>(
    input: &mut I,
    output: &W,
    errors: &E,
    piece: &mut [u8],
    line: &mut [u8],
    store: &mut [u8],
    buffer: &mut [u8],
    out: &mut [u8],
) -> Turn
    requires { (length line.old ≡ kept_most) × (length store.old ≡ store_long) × (length buffer.old ≡ buffer_long) × (longest ≤ length out.old) }
    ensures { result.run.at ≤ length out.new }
{
    let mut run = Run {
        state: State::new(),
        n: 0,
        at: 0,
    };
    for _ in 0..u64::MAX {
        let Some(n) = read_piece(input, errors, piece) else {
            return Turn { run, ok: true };
        };
        if n == 0 {
            run = end_input(run, line, store, buffer, out);
            return Turn { run, ok: true };
        }
        let t = hear_piece(output, &piece[0..n], run, line, store, buffer, out);
        if !t.ok {
            return t;
        }
        run = t.run;
    }
    Turn { run, ok: true }
}

fn main(rt: HostRuntime) {
    let mut input = rt.stdin();
    let output = rt.stdout();
    let errors = rt.stderr();
    let mut piece = [0u8; 65536];
    let mut line = [0u8; 8193];
    let mut store = [0u8; 32768];
    let mut buffer = [0u8; 32768];
    let mut out = [0u8; 131072];
    let t = answer_all(
        &mut input,
        &output,
        &errors,
        &mut piece,
        &mut line,
        &mut store,
        &mut buffer,
        &mut out,
    );
    if t.ok && is_written(&output, &out[0..t.run.at]) {
        return;
    }
    is_written(&errors, b"hexlines: writing failed\n");
}
