// The public entries, all of them: a store of records, the module that is built of it, the reader of its items, and the numbers, names and expressions of which they are made.
#![tactic(auto)]

ghost use Rattle.std.specs.Prelude.{◌≡◌, ◌≤◌, length, Ok};
ghost use Rattle.thriftbell.specs.Add.{Storable, outcome, added, adding};
ghost use Rattle.thriftbell.specs.Read.{outcome as readOutcome, reading, PutsWords};

pub use exprs::{check_expr, i32_const, i64_const};
use format::{Done, NO_REFUSAL, copy};
pub use format::{Refusal, Written};
pub use frames::State;
use frames::{is_full, is_over};
pub use module::{Finished, Given, Module, finish};
pub use names::is_name;
pub use numbers::{
    Read, decode_i32, decode_i64, decode_index, decode_u32, decode_u64, encode_i32, encode_i64,
    encode_index, encode_u32, encode_u64, encoding_size,
};

// Document 01, Records: of words.
const WORDS_MOST: usize = 4096;

// Reading looks at so many bytes.
const FRONT_MOST: usize = 65536;

// What adding answers: the state with the frame's room used too; or a refusal, and then nothing was changed.
pub type Added = Result<State, Refusal>;

// The frame of a record that is accepted, behind the room used: its head, and its item as judging left it.
fn put_frame(
    state: State,
    store: &mut [u8],
    words: &[u32],
    text: &[u8],
    n: usize,
    tried: &[u8],
) -> State
    requires { Storable state store.old words.now text.now n tried.now }
    ensures { outcome state (Ok result) store.new ≡ added state store.old words.now text.now }
{
    let at = state.used;
    let from = at + 5;
    let _ = frames::put_head(words[0] as u8, n, &mut store[at..]);
    items::put_item(words, text, n, tried, &mut store[from..]);
    state.grown(n)
}

// What is judged is tried in the room that is lent for it, and put into the store once it is accepted.
fn add_tried(state: State, store: &mut [u8], words: &[u32], text: &[u8], tried: &mut [u8]) -> Added
    ensures { outcome state result store.new ≡ adding state store.old words.now text.now }
{
    if is_over(state, store) {
        return Err(Refusal::StoreOver);
    }
    let n = items::judge(words, text, tried)?;
    if is_full(state, store, n) {
        return Err(Refusal::StoreFull);
    }
    Ok(put_frame(state, store, words, text, n, tried))
}

fn add_in<const ROOM: usize>(state: State, store: &mut [u8], words: &[u32], text: &[u8]) -> Added
    requires { ROOM ≤ 4096 }
    ensures { outcome state result store.new ≡ adding state store.old words.now text.now }
{
    let mut tried = [0u8; ROOM];
    add_tried(state, store, words, text, &mut tried)
}

// Clearing more room takes longer than it saves where a record is short. Sixteen words are a table, one import, or data.
pub fn add(state: State, store: &mut [u8], words: &[u32], text: &[u8]) -> Added
    ensures { outcome state result store.new ≡ adding state store.old words.now text.now }
{
    match words.len() {
        0..=16 => add_in::<64>(state, store, words, text),
        17..=64 => add_in::<512>(state, store, words, text),
        _ => add_in::<4096>(state, store, words, text),
    }
}

// What reading took of some bytes: how many words it wrote, and bytes it took.
#[derive(Clone, Copy, Debug, PartialEq, Eq, Hash)]
pub struct Took {
    pub words: usize,
    pub bytes: usize,
}

// What reading answers; beside a refusal nothing was changed.
pub type Taken = Result<Took, Refusal>;

// Writes the record of an item, where there is room: as measuring left it, or by a second walk where that had no room.
fn put_words(id: u8, front: &[u8], n: usize, tried: &[u32], out: &mut [u32])
    requires { length front.now ≤ 65536 }
    ensures { PutsWords id front.now n tried.now out.old out.new }
{
    if n <= tried.len() {
        let _ = copy(&tried[..n], out);
        return;
    }
    items::walk_bytes(id, front, out, Done::new(NO_REFUSAL));
}

// Measured first, in the room that is lent for it, so that a refusal changes nothing.
fn read_tried(id: u8, front: &[u8], tried: &mut [u32], out: &mut [u32]) -> Taken
    requires { length front.now ≤ 65536 }
    ensures { readOutcome result out.new ≡ reading id front.now out.old }
{
    let Some((end, s)) = items::walk_bytes(id, front, tried, Done::new(NO_REFUSAL)) else {
        return Err(Refusal::NothingToRead);
    };
    let n = s.count();
    if WORDS_MOST < n {
        return Err(Refusal::NothingToRead);
    }
    if out.len() < n {
        return Err(Refusal::OutputShort);
    }
    put_words(id, front, n, tried, out);
    Ok(Took {
        words: n,
        bytes: end,
    })
}

fn read_in<const ROOM: usize>(id: u8, front: &[u8], out: &mut [u32]) -> Taken
    requires room { ROOM ≤ 512 }
    requires short { length front.now ≤ 65536 }
    ensures { readOutcome result out.new ≡ reading id front.now out.old }
{
    let mut tried = [0u32; ROOM];
    read_tried(id, front, &mut tried, out)
}

// The records of tables and data have few words, and so have short items: clearing room for more takes longer than reading them.
fn read_front(id: u8, front: &[u8], out: &mut [u32]) -> Taken
    requires { length front.now ≤ 65536 }
    ensures { readOutcome result out.new ≡ reading id front.now out.old }
{
    match (id, front.len()) {
        (4 | 11, _) => read_in::<16>(id, front, out),
        (_, 0..=64) => read_in::<128>(id, front, out),
        _ => read_in::<512>(id, front, out),
    }
}

// Bytes behind the first 65,536 are not looked at.
pub fn read_item(id: u8, bytes: &[u8], out: &mut [u32]) -> Taken
    ensures { readOutcome result out.new ≡ reading id bytes.now out.old }
{
    let end = bytes.len().min(FRONT_MOST);
    read_front(id, &bytes[..end], out)
}
