// Runs of a fleet: definitions and lemmas, and hardly any code.
#![tactic(auto)]

pub mod theorems;
