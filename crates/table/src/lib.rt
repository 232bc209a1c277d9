// The rule table: its bytes, its check, and what a checked table says.
#![tactic(auto)]

pub mod fault;
pub mod firmware;
pub mod kind;
pub mod limits;
pub mod node;
pub mod reader;
pub mod table;
