// Calls and answers as lines of text.
#![tactic(auto)]

mod fault;
mod laws;
mod reader;
mod writer;

pub use fault::Fault;
pub use laws::{limits_back, only_line, place_begins, places, reads_back};
pub use reader::{read_limits, read_line};
pub use writer::{push_cell, push_number, write_answer};
