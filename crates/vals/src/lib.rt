// Value, storage and field types: their words and their bytes, as `Encode` of wasm-encoder's types.rs writes `ValType`, `StorageType` and `FieldType`.
#![tactic(auto)]

mod reader;
mod writer;

pub use reader::{read_field, read_mutable, read_val};
pub use writer::{walk_field, walk_mutable, walk_storage, walk_val};
