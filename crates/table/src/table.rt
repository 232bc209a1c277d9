// A rule table: first a draft, and once check accepts it a checked table.
ghost use Rattle.std.specs.Prelude.{◌≡◌, ◌+◌, ◌*◌, ◌≤◌, true, length};
ghost use Rattle.table.specs.Limits.{max_switches, max_nodes, max_rules, register_count};
ghost use Rattle.table.specs.Tables.{sound, starts_start, table_bytes, table_of};

mod accept;
mod access;
mod parse;
mod worked;

use crate::node::{Node, Rule};
pub use accept::{check, check_front};
use arrayvec::ArrayVec;

// As many nodes and rules as a table may have.
pub(crate) type Nodes = ArrayVec<Node, 48>;

pub(crate) type Rules = ArrayVec<Rule, 16>;

// The bytes of a table that nobody has checked.
#[derive(Drop)]
pub struct Draft<'a> {
    bytes: &'a [u8],
}

// A table that was accepted, with its nodes and rules decoded once.
#[derive(Drop)]
pub struct Checked<'a> {
    // The table's bytes and no more; the starting words are read from here.
    bytes: &'a [u8],
    switches: usize,
    nodes: Nodes,
    rules: Rules,
    ghost few_switches: { switches ≤ max_switches },
    ghost few_nodes: { length nodes.items ≤ max_nodes },
    ghost few_rules: { length rules.items ≤ max_rules },
    ghost long: { length bytes.now ≡ starts_start (length nodes.items) (length rules.items) + register_count * switches * 4 },
    ghost fit: { sound (table_of bytes.now switches nodes.items rules.items) ≡ true },
    ghost coded: { table_bytes (table_of bytes.now switches nodes.items rules.items) ≡ bytes.now },
}
