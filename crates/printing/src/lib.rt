// A paper's file as a text, and what is printed of it.
#![tactic(auto)]

mod printer;
mod reading;
mod rows;

pub use printer::{one_output, print, print_by, refuse};
pub use reading::{Cell, Paper, ReadError, read_paper};
pub use rows::{END, view};
