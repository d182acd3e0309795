// The import section of wasm-encoder's imports.rs: entity types, single imports and the two compact forms.
#![tactic(auto)]

mod reader;
mod writer;

pub use reader::walk_bytes;
use tables::{GlobalType, MemoryType, TableType, TagType};
pub use writer::walk_words;

#[derive(Clone, Copy, Debug, PartialEq, Eq, Hash)]
pub enum EntityType {
    Function(u32),
    Table(TableType),
    Memory(MemoryType),
    Global(GlobalType),
    Tag(TagType),
    FunctionExact(u32),
}

// The forms of an import, as `Imports` has them.
#[derive(Clone, Copy, Debug, PartialEq, Eq, Hash)]
pub enum Form {
    Single,
    Compact1,
    Compact2,
}
