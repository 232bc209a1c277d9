// A rehearsal: the calls of its file, its run, and the text of its listing.
#![tactic(auto)]

pub mod events;
pub mod knowledge;
pub mod output;
pub mod rehearsal;
pub mod stop;
#[cfg(test)]
mod tests;
pub mod text;
