#![tactic(auto)]

// Lines, reading and writing, run on files that were written by hand.
#[cfg(test)]
mod line_tests;
#[cfg(test)]
mod reading_tests;
#[cfg(test)]
mod writing_tests;
