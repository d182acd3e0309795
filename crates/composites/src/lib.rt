// What composite types of wasm-encoder's types.rs define: their records and their bytes.
#![tactic(auto)]

mod reader;
mod writer;

pub use reader::read_inner;
pub use writer::walk_inner;
