#![tactic(auto)]

mod admission;
mod cleaning;
mod dilation;
mod erosion;
mod faults;
mod filling;
mod measures;
mod passes;
mod promises;
mod running;
mod words;

pub use cleaning::{close, open};
pub use dilation::dilate;
pub use erosion::erode;
pub use faults::Refusal;
pub use filling::fill;
pub use measures::area;
pub use promises::histories_hold;
pub use running::run;
pub use words::{Move, Record};
