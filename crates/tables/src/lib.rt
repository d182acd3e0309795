// Table, memory, global and tag types of wasm-encoder's tables.rs, memories.rs, globals.rs and tags.rs, and the tables of TableSection.
#![tactic(auto)]

mod reader;
mod writer;

pub use reader::{read_global_type, read_memory_type, read_table_type, read_tag_type, walk_bytes};
use types::{RefType, ValType};
pub use writer::{walk_global_type, walk_memory_type, walk_table_type, walk_tag_type, walk_words};

#[derive(Clone, Copy, Debug, PartialEq, Eq, Hash)]
pub struct TableType {
    pub element_type: RefType,
    pub table64: bool,
    pub minimum: u64,
    pub maximum: Option<u64>,
    pub shared: bool,
}

#[derive(Clone, Copy, Debug, PartialEq, Eq, Hash)]
pub struct MemoryType {
    pub minimum: u64,
    pub maximum: Option<u64>,
    pub memory64: bool,
    pub shared: bool,
}

#[derive(Clone, Copy, Debug, PartialEq, Eq, Hash)]
pub struct GlobalType {
    pub val_type: ValType,
    pub mutable: bool,
}

#[derive(Clone, Copy, Debug, PartialEq, Eq, Hash)]
pub enum TagKind {
    Exception,
}

#[derive(Clone, Copy, Debug, PartialEq, Eq, Hash)]
pub struct TagType {
    pub kind: TagKind,
    pub func_type_idx: u32,
}
