//! Tables of fields between semicolons, read and written with `csv`: their rows, the numbers in their fields, their lines.
#![tactic(auto)]

pub mod columns;
pub mod lines;
pub mod number;
pub mod rows;

pub use columns::{measure_at, whole_at};
pub use lines::{Lines, optional, signed, unsigned};
pub use number::{Decimal, decimal_of, plain_number, trim};
pub use rows::Rows;
