// The checked examples of document 01: each is written, shown in hexadecimal and read back, and the file stdout has what the document says.
// specs/Examples.antt proves those marked P.
#![tactic(auto)]

ghost use Rattle.std.specs.Prelude.{◌<◌};

use frames::State;
use module::{Finished, Given};
use std::io::Print;
use thriftbell::{Added, Refusal, Written};

// A passive data record, of the first byte of its text.
const PASSIVE: [u32; 7] = [11, 0, 0, 0, 0, 0, 1];

// What can't be written is passed over.
fn say<W: Print>(to: &W, text: &[u8]) {
    let _ = to.write_all(text);
}

fn say_number<W: Print>(to: &W, n: u64) {
    let _ = to.print(n);
}

fn digit(d: u8) -> u8
    requires { d < 16 }
{
    if d < 10 { b'0' + d } else { b'A' - 10 + d }
}

// The first n bytes, each in two digits.
fn show<W: Print>(to: &W, s: &[u8], n: usize) {
    for &b in s.iter().take(n) {
        say(to, &[b' ', digit(b / 16), digit(b % 16)]);
    }
}

fn show_written<W: Print>(to: &W, w: Written, out: &[u8]) {
    match w {
        Ok(n) => show(to, out, n),
        Err(_) => say(to, b" refused, 10"),
    }
}

fn end<W: Print>(to: &W, back: bool) {
    say(
        to,
        if back {
            b", read back\n".as_slice()
        } else {
            b", NOT read back\n".as_slice()
        },
    );
}

fn unsigned<W: Print>(to: &W, name: &[u8], v: u64) {
    let mut out = [0u8; 10];
    say(to, name);
    show_written(to, numbers::encode_u64(v, &mut out), &out);
    end(to, numbers::decode_u64(&out, 0).is_some_and(|r| r.0 == v));
}

fn signed<W: Print>(to: &W, name: &[u8], v: i64) {
    let mut out = [0u8; 10];
    say(to, name);
    show_written(to, numbers::encode_i64(v, &mut out), &out);
    end(to, numbers::decode_i64(&out, 0).is_some_and(|r| r.0 == v));
}

// What the old emitter did: the bytes of unsigned 9999 in a signed field.
fn fault<W: Print>(to: &W) {
    let mut out = [0u8; 10];
    say(to, b"unsigned 9999, in a signed field:");
    show_written(to, numbers::encode_u32(9999, &mut out), &out);
    match numbers::decode_i32(&out, 0) {
        Some((-6385, _)) => say(to, b", read as -6385\n"),
        Some(_) => say(to, b", read as another number\n"),
        None => say(to, b", not read\n"),
    }
}

// One byte of room less than a number needs.
fn short<W: Print>(to: &W) {
    let mut out = [0xAAu8; 2];
    say(to, b"signed 9999 into two bytes:");
    show_written(to, numbers::encode_i32(9999, &mut out), &out);
    say(to, b", which hold");
    show(to, &out, 2);
    say(to, b"\n");
}

fn refused<W: Print>(to: &W, r: Refusal) {
    say(to, b" refused, ");
    say_number(to, r.number() as u64);
    say(to, b"\n");
}

// What an add answered, in words.
fn show_added<W: Print>(to: &W, a: Added) {
    match a {
        Ok(_) => say(to, b" accepted\n"),
        Err(r) => refused(to, r),
    }
}

fn show_finished<W: Print>(to: &W, f: Finished, out: &[u8]) {
    match f {
        Ok(n) => {
            show(to, out, n);
            say(to, b"\n");
        }
        Err(r) => refused(to, r),
    }
}

// The data count section, and the data.
fn show_module<W: Print>(to: &W, state: State, store: &[u8], out: &mut [u8]) {
    let order = [12, 11];
    let given = Given { count: 1 };
    show_finished(to, module::finish(state, store, &order, given, out), out);
}

// The whole case: a passive data record, the byte 41; and the same with one byte of output too few.
fn whole_case<W: Print>(to: &W) {
    let mut store = [0u8; 32];
    let mut out = [0u8; 17];
    let mut less = [0u8; 16];
    let Ok(state) = thriftbell::add(State::new(), &mut store, &PASSIVE, b"A") else {
        say(to, b"not added\n");
        return;
    };
    say(to, b"data count and data, a passive record:");
    show_module(to, state, &store, &mut out);
    say(to, b"into one byte less:");
    show_module(to, state, &store, &mut less);
}

// The words of a record.
fn show_words<W: Print>(to: &W, words: &[u32]) {
    for &w in words {
        say(to, b" ");
        say_number(to, w as u64);
    }
}

// The item of a record that was added, and the record that is read of it.
fn show_item<W: Print>(to: &W, id: u8, item: &[u8], back: &mut [u32]) {
    say(to, b"its item:");
    show(to, item, item.len());
    match thriftbell::read_item(id, item, back) {
        Ok(_) => {
            say(to, b", read back as");
            show_words(to, back);
            say(to, b"\n");
        }
        Err(_) => end(to, false),
    }
}

// Active data at 42, "hello".
fn hello<W: Print>(to: &W) {
    let words = [11, 1, 0, 0, 3, 3, 5];
    let mut store = [0u8; 15];
    let mut back = [0u32; 7];
    let answer = thriftbell::add(State::new(), &mut store, &words, b"\x41\x2A\x0Bhello");
    say(to, b"active data at 42, hello:");
    show_added(to, answer);
    show_item(to, 11, &store[5..], &mut back);
}

// Expressions of externref without a table: the one exception, which comes back with table 0 given.
fn no_table<W: Print>(to: &W) {
    let words = [9, 2, 0, 0, 0, 3, 1, 17, 0, 0];
    let mut store = [0u8; 12];
    let mut back = [0u32; 10];
    let answer = thriftbell::add(State::new(), &mut store, &words, b"\x41\x2A\x0B");
    say(
        to,
        b"externref expressions without table at 42, none listed:",
    );
    show_added(to, answer);
    show_item(to, 9, &store[5..], &mut back);
}

fn empty_order<W: Print>(to: &W) {
    let store = [0u8; 0];
    let mut out = [0u8; 8];
    say(to, b"empty order:");
    let given = Given { count: 0 };
    show_finished(
        to,
        module::finish(State::new(), &store, &[], given, &mut out),
        &out,
    );
}

// A frame that fills the store exactly, and one that would by a byte not fit.
fn full_store<W: Print>(to: &W) {
    let mut store = [0u8; 8];
    say(to, b"an item of 3 bytes into a store of 8:");
    show_added(
        to,
        thriftbell::add(State::new(), &mut store, &PASSIVE, b"A"),
    );
    say(to, b"into a store of 7:");
    show_added(
        to,
        thriftbell::add(State::new(), &mut store[0..7], &PASSIVE, b"A"),
    );
}

fn main(rt: HostRuntime) {
    let to = rt.stdout();
    unsigned(&to, b"unsigned 127:", 127);
    unsigned(&to, b"unsigned 128:", 128);
    unsigned(&to, b"unsigned 624485:", 624485);
    unsigned(&to, b"unsigned 4294967295:", 4294967295);
    signed(&to, b"signed 63:", 63);
    signed(&to, b"signed 64:", 64);
    signed(&to, b"signed -64:", -64);
    signed(&to, b"signed -65:", -65);
    signed(&to, b"signed 9999:", 9999);
    signed(&to, b"signed -123456:", -123456);
    fault(&to);
    short(&to);
    whole_case(&to);
    hello(&to);
    no_table(&to);
    empty_order(&to);
    full_store(&to);
}
