#![tactic(auto)]

mod faults;
mod filling;
mod measuring;
mod opening;
mod reading;

pub use faults::NoJob;
pub use measuring::measure;
pub use reading::read;
