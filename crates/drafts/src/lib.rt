#![tactic(auto)]

mod drafts;
mod following;
mod looping;
mod steps;

pub use drafts::Reader;
