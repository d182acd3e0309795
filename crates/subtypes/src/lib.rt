// Subtypes of wasm-encoder's types.rs: their records and their bytes.
#![tactic(auto)]

mod reader;
mod writer;

pub use reader::read_sub;
pub use writer::walk_sub;
