// What a checked table says.
ghost use Rattle.std.specs.Prelude.{◌≡◌, ◌≤◌, length};
ghost use Rattle.table.specs.Limits.{max_nodes, max_rules, max_switches};
ghost use Rattle.table.specs.Tables.{start_word, table_length};
ghost use Rattle.table.specs.Views.{view};

use crate::limits::REGISTERS;
use crate::node::{Node, Rule};
use crate::reader::word;
use crate::table::Checked;

impl<'a> Checked<'a> {
    // The code of the table's kind of reading.
    pub fn code(&self) -> u32
        ensures { result ≡ (view self.now).code }
    {
        word(self.bytes, 0)
    }

    // The number of switches.
    pub fn switches(&self) -> usize
        ensures value { result ≡ (view self.now).switches }
        ensures few { result ≤ max_switches }
    {
        self.switches
    }

    pub fn nodes(&self) -> &[Node]
        ensures value { result.now ≡ (view self.now).nodes }
        ensures few { length result.now ≤ max_nodes }
    {
        &self.nodes
    }

    pub fn rules(&self) -> &[Rule]
        ensures value { result.now ≡ (view self.now).rules }
        ensures few { length result.now ≤ max_rules }
    {
        &self.rules
    }

    // The word that a register starts with, if the table has the switch and the register.
    pub fn starting_word(&self, switch: usize, register: usize) -> Option<u32>
        ensures { result ≡ start_word (view self.now) switch register }
    {
        if switch >= self.switches || register >= REGISTERS {
            return None;
        }
        let first = self.bytes.len() - self.switches * REGISTERS * 4;
        Some(word(self.bytes, first + (switch * REGISTERS + register) * 4))
    }

    // The length of the table's bytes.
    pub fn length(&self) -> usize
        ensures { result ≡ table_length (view self.now) }
    {
        self.bytes.len()
    }
}
