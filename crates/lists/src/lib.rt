// Lists of indices, value types or fields: a count and then the members, as `Encode` of wasm-encoder's lib.rs writes a slice.
#![tactic(auto)]

mod reader;
mod writer;

pub use reader::read_list;
pub use writer::walk_list;

// What the members of a list are.
#[derive(Clone, Copy, Debug, PartialEq, Eq, Hash)]
pub enum Member {
    Index,
    Val,
    Field,
}
