// What the programs share: the command line, the input, the answer, and the status that they end with.
#![tactic(auto)]

pub mod failure;
pub mod options;
pub mod program;
#[cfg(test)]
mod tests;
