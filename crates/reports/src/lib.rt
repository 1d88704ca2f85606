#![tactic(auto)]

mod reporting;
mod telling;
mod texts;
mod working;

pub use reporting::report;
pub use telling::done_line;
pub use texts::Report;
