#![tactic(auto)]

mod frames;
mod kind;
mod level;
mod touch;
mod values;

pub use kind::{Kind, WrittenKind};
pub use values::{Frames, Level, Touch};
