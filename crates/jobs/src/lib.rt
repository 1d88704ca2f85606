#![tactic(auto)]

mod faults;
mod heads;
mod laws;
mod numbers;
mod orders;
mod sections;
mod sides;

pub use faults::{FileFault, Stop, WriteFault};
pub use heads::{CellKind, Head};
pub use laws::job_and_file;
pub use numbers::{natural, whole};
pub use orders::Order;
pub use sections::Section;
pub use sides::first_side;
