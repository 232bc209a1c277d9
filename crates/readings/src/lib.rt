// What registers hold: the trait that every kind of reading implements, and the delivered kinds.
#![tactic(auto)]

pub mod number;
pub mod ports;
pub mod reading;
pub mod theorems;
