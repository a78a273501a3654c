// What the program `replay` reads: decimal numbers, and tables of them. What stands in standard input is no part of a promise, since the
// kit's `read` promises nothing of the bytes.
#![tactic(auto)]

mod input;
mod tables;

pub use input::{Found, Table, number, number_if_any, read_table, small};
pub use tables::{Tables, read_tables};
