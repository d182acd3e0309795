// Lines out of pieces of an input, and their answers into an output that the caller writes on: nothing is written here.
#![tactic(auto)]

mod input;
mod reply;

pub use input::{end_input, take_piece};
use thriftbell::State;

// The state; how many characters of a line are gathered; and how many bytes of the output wait to be written, from its front on.
#[derive(Clone, Copy, Debug, PartialEq, Eq)]
pub struct Run {
    pub state: State,
    pub n: usize,
    pub at: usize,
}

// The run behind a part of a piece, and how many characters that part has.
#[derive(Clone, Copy, Debug, PartialEq, Eq)]
pub struct Heard {
    pub run: Run,
    pub to: usize,
}
