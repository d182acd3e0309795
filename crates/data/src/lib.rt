// Data segments, as DataSection of wasm-encoder's data.rs writes them: passive, active in memory 0, active in another memory.
#![tactic(auto)]

mod reader;
mod writer;

pub use reader::walk_bytes;
pub use writer::walk_words;
