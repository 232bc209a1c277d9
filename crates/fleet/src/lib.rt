// The fleet: every switch's block in one memory, and a carrier for the copies that they send.
#![tactic(auto)]

mod blocks;
pub mod call;
pub mod fit;
pub mod fleet;
mod refusal;
mod shape;
