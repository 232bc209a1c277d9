// Carriers: what keeps copies by number, and the pools that do.
#![tactic(auto)]

pub mod carrier;
pub mod copy;
pub mod firmware;
pub(crate) mod format;
pub mod frame_pool;
pub(crate) mod frames;
pub(crate) mod places;
pub(crate) mod pool;
pub(crate) mod shape;
pub mod theorems;
pub mod word_pool;
pub(crate) mod words;
