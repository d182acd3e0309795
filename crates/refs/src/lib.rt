// References: their words and their bytes, as `Encode` of wasm-encoder's types.rs writes `HeapType` and `RefType`.
#![tactic(auto)]

mod reader;
mod writer;

pub use reader::{append_ref_words, head, read_ref};
pub use writer::{append_ref, walk_ref};
