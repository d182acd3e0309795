// LEB128, argued once: for every width, and for numbers without and with a sign alike. A number goes by its sign and its magnitude: `pos a` is a, and
// `negsuc a` is -(a + 1), whose bits are those of a turned over.
#![tactic(auto)]

mod reader;
mod writer;

pub use reader::{decode, is_within};
pub use writer::{encode, size};

// A number by its sign and its magnitude.
#[derive(Clone, Copy, Debug, PartialEq, Eq)]
pub struct Parts {
    pub neg: bool,
    pub magnitude: u64,
}
