// What may stand before a composite type of wasm-encoder's types.rs: final or not and supertypes, shared, describes, descriptor.
#![tactic(auto)]

mod reader;
mod writer;

pub use reader::{read_option, read_shared, read_supers};
pub use writer::{walk_option, walk_shared, walk_supers};
