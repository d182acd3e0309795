// What stands in a record's words and is no text: an index, a number of 64 bits, two unused words.
#![tactic(auto)]

mod reader;
mod writer;

pub use reader::{read_index, read_list, read_number64};
pub use writer::{walk_index, walk_list, walk_number64, walk_unused};
