#![tactic(auto)]

mod columns;
mod faults;
mod fields;
mod laws;
mod line;
mod numbers;
mod reading;
mod words;
mod writing;

pub use faults::LineFault;
pub use laws::{line_and_bytes, right_justified};
pub use line::Line;
pub use numbers::Number;
pub use reading::{read_fields, read_line, read_word};
pub use words::Word;
pub use writing::write_line;
