// Task text: the reader that holds the text, rows and the whole file; and the text of a table.
#![tactic(auto)]

pub mod read;
pub mod reader;
pub mod write;
