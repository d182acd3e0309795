// Types, as TypeSection of wasm-encoder's types.rs writes them: a subtype alone, or a group.
#![tactic(auto)]

mod reader;
mod writer;

pub use reader::walk_bytes;
pub use writer::walk_words;
