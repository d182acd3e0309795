// Limits of tables and memories of wasm-encoder's tables.rs and memories.rs: their words and their bytes.
#![tactic(auto)]

mod reader;
mod writer;

pub use reader::read_limits;
pub use writer::walk_limits;
