// Parts of records and items that are texts: a name, an expression, data, as words and as bytes.
#![tactic(auto)]

mod reader;
mod writer;

pub use reader::{find_name, read_data, read_expr, read_name};
pub use writer::{walk_data, walk_expr, walk_name};
