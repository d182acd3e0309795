// What a line's frame does to the store, its state and the module's buffer.
ghost use Rattle.std.specs.Prelude.{◌≡◌, ◌≤◌, length, Err};
ghost use Rattle.format.specs.declared.refusal.Refusal.TheVariants.{BadLine};
ghost use Rattle.std.proofs.Math.Option.{some};
ghost use Rattle.frames.specs.Frames.{word32};
ghost use Rattle.hex_text.specs.Frame.{adds, finish_told, word_list, whole, frame_of};
ghost use Rattle.hex_text.specs.Line.{line_of};
ghost use Rattle.format.specs.Refusal.{told};
ghost use Rattle.lines.specs.Done.{value_of, Does, Tells};

use hex_text::{frame_bytes, read_words, word_at};
use thriftbell::{Given, Refusal, State, add, finish};

// How many bytes the module has, or 0 behind an add; or why the line is refused. And the state.
#[derive(Clone, Copy, Debug, PartialEq, Eq)]
pub struct Told {
    pub answer: Result<usize, Refusal>,
    pub state: State,
}

impl Told {
    // The number of the table, and the module's length or 0.
    pub fn numbers(self) -> (u8, usize)
        ensures number { result.0 ≡ told self.answer }
        ensures value { result.1 ≡ value_of self.answer }
    {
        match self.answer {
            Ok(n) => (0, n),
            Err(r) => (r.number(), 0),
        }
    }
}

// What no frame is told.
fn no_frame(state: State) -> Told
    ensures { result ≡ record { answer = Err BadLine; state = state } }
{
    Told {
        answer: Err(Refusal::BadLine),
        state,
    }
}

fn add_words(words: &[u32], text: &[u8], state: State, store: &mut [u8]) -> Told
    ensures { Tells (some (adds words.now text.now)) state store.old store.new result }
{
    match add(state, store, words, text) {
        Ok(state) => Told {
            answer: Ok(0),
            state,
        },
        Err(r) => Told {
            answer: Err(r),
            state,
        },
    }
}

// Few bytes hold few words, so that there is room for them.
fn add_frame(bytes: &[u8], state: State, store: &mut [u8]) -> Told
    requires { length bytes.now ≤ 4096 }
    ensures { Tells (whole adds (word_list.parse bytes.now)) state store.old store.new result }
{
    if bytes.len() < 2 {
        return no_frame(state);
    }
    let n = bytes[0] as usize + 256 * (bytes[1] as usize);
    let mut list = [0u32; 1024];
    if !read_words(&bytes[2..], n, &mut list) {
        return no_frame(state);
    }
    let from = 2 + 4 * n;
    add_words(&list[0..n], &bytes[from..], state, store)
}

fn finish_frame(bytes: &[u8], state: State, store: &[u8], buffer: &mut [u8]) -> Told
    ensures { Does (whole finish_told (word32.parse bytes.now)) state store.now buffer.old store.now buffer.new result }
{
    if bytes.len() < 4 {
        return no_frame(state);
    }
    let count = word_at(bytes, 0);
    let answer = finish(state, store, &bytes[4..], Given { count }, buffer);
    Told { answer, state }
}

fn tell(frame: &[u8], state: State, store: &mut [u8], buffer: &mut [u8]) -> Told
    requires { length frame.now ≤ 4096 }
    ensures { Does (frame_of frame.now) state store.old buffer.old store.new buffer.new result }
{
    match frame {
        [1, rest @ ..] => add_frame(rest, state, store),
        [2, rest @ ..] => finish_frame(rest, state, store, buffer),
        [_, ..] => no_frame(state),
        [] => no_frame(state),
    }
}

// A line has at most 4,096 bytes; one that holds no frame is answered as an empty frame is.
pub fn tell_line(line: &[u8], state: State, store: &mut [u8], buffer: &mut [u8]) -> Told
    ensures { Does (line_of line.now) state store.old buffer.old store.new buffer.new result }
{
    let mut bytes = [0u8; 4096];
    match frame_bytes(line, &mut bytes) {
        Some(n) => tell(&bytes[..n], state, store, buffer),
        None => no_frame(state),
    }
}
