// Where the elements of a segment of wasm-encoder's elements.rs go: the mode, and the table and the offset that it has.
#![tactic(auto)]

mod reader;
mod writer;

pub use reader::{append_mode, append_two, read_place};
pub use writer::{find_mode, walk_place};

// Where the elements of a segment go. Active is without a table.
#[derive(Clone, Copy, Debug, PartialEq, Eq, Hash)]
pub enum Mode {
    Active,
    Passive,
    ActiveTable,
    Declared,
}
