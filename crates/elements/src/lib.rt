// The element section of wasm-encoder's elements.rs: segments of functions or of expressions, and the eight flags.
#![tactic(auto)]

mod reader;
mod writer;

pub use reader::walk_bytes;
pub use writer::walk_words;
