// Finishing: the module of a store's frames, by an order list and the numbers given with it.
#![tactic(auto)]

mod order;

ghost use Rattle.std.specs.Prelude.{◌≡◌, true, ◌≤◌, length};
ghost use Rattle.format.specs.Runs.{run};
ghost use Rattle.format.specs.Write.{Writes};
ghost use Rattle.frames.specs.Frames.{frame};
ghost use Rattle.frames.specs.Builder.{store_most};
ghost use Rattle.sections.specs.Section.{ending};
ghost use Rattle.sections.specs.Order.{order_most, order_ids, all_among};
ghost use Rattle.module.specs.Module.{header};
ghost use Rattle.module.specs.Finish.{outcome, building, finishing};

use format::{Refusal, Written};
use frames::{State, is_over};
use order::is_order;
pub use sections::Given;
use sections::{put_sections, sections_len};

// The most ids of an order list.
const ORDER_MOST: usize = 32;

#[derive(Clone, Copy, Debug, PartialEq, Eq)]
pub struct Module {}

impl Module {
    // The 8-byte header at the beginning of all core wasm modules.
    pub const HEADER: [u8; 8] = [0x00, 0x61, 0x73, 0x6D, 0x01, 0x00, 0x00, 0x00];
}

// What finishing answers: how many bytes the module has, or a refusal, and then nothing was changed.
pub type Finished = Result<usize, Refusal>;

// Every module begins with it, and one of no sections is it.
pub fn put_header(out: &mut [u8]) -> Written
    ensures { Writes header out.old out.new result }
{
    format::copy(&Module::HEADER, out)
}

fn build(frames: &[u8], order: &[u8], given: Given, out: &mut [u8]) -> Finished
    requires listed { all_among order_ids order.now ≡ true }
    requires few_ids { length order.now ≤ order_most }
    requires frames_within { length frames.now ≤ store_most }
    ensures { outcome result out.new ≡ building (ending order.now given) (run frame frames.now) out.old }
{
    let tallies = frames::tally(frames).ok_or(Refusal::NoFrames)?;
    if out.len() < 8 + sections_len(order, tallies, given) {
        return Err(Refusal::OutputShort);
    }
    let n = put_header(out).unwrap();
    Ok(n + put_sections(frames, order, tallies, given, &mut out[n..]))
}

pub fn finish(state: State, store: &[u8], order: &[u8], given: Given, out: &mut [u8]) -> Finished
    ensures { outcome result out.new ≡ finishing state store.now (ending order.now given) out.old }
{
    if is_over(state, store) {
        return Err(Refusal::StoreOver);
    }
    if ORDER_MOST < order.len() || !is_order(order) {
        return Err(Refusal::BadOrder);
    }
    build(&store[..state.used], order, given, out)
}
