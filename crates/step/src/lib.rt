// One switch's step: what it does with one event, over the words of its block.
#![tactic(auto)]

pub(crate) mod advance;
mod block;
pub mod lengths;
pub mod open;
mod records;
pub(crate) mod sight;
pub mod step;
pub mod theorems;
mod words;

pub use advance::Outcome;
