// What is printed of what the switches know.
ghost use Rattle.listing.specs.Knowledge.{entry_of, entry_text, knowledge_text};
ghost use Rattle.std.specs.Prelude.{◌≡◌, ◌++◌, IfOk, Some, string_bytes, OnOk};
ghost use Rattle.table.specs.Views.{view};

use crate::rehearsal::Place;
use fleet::call::Known;
use std::alloc::{AllocError, Global};
use std::fmt;
use table::table::Checked;

const HEADING: &str = "\nswitch of count words\n";

// A word that a switch knows, in the line of a pair of switches.
#[derive(Clone, Copy)]
pub struct Entry {
    pub switch: usize,
    // The switch that it knows the word of.
    pub of: usize,
    // Whether the word is the first of its line, and whether it is the last.
    pub first: bool,
    pub last: bool,
    pub known: Known,
}

impl Entry {
    // Entry `i` of what the switches know.
    fn new(table: &Checked, i: usize, known: Known) -> Entry
        ensures { result ≡ entry_of (view table.now) i known }
    {
        let Place { switch, of, node } = Place::of_entry(table, i);
        Entry {
            switch,
            of,
            first: node == 0,
            last: node + 1 == table.nodes().len(),
            known,
        }
    }
}

impl fmt::Display for Entry {
    ghost output = { λ e. Some (entry_text e) };

    fn fmt<W: fmt::Write>(&self, f: &mut fmt::Formatter<W>) -> fmt::Result {
        let Known { count, word } = self.known;
        if self.first {
            write!(f, "{} {} {count}", self.switch, self.of)?;
        }
        write!(f, " {word}")?;
        if self.last {
            write!(f, "\n")?;
        }
        Ok(())
    }
}

// Writes an entry to the end of a text.
fn push_entry(text: &mut String, entry: Entry) -> Result<(), AllocError>
    ensures { OnOk result (string_bytes text.new ≡ string_bytes text.old ++ entry_text entry) }
{
    write!(text, "{entry}")
}

// What each switch knows of each, a line for each pair: switch, of which, count, and the words of the nodes. `known`
// has one entry for each node of each pair, in order.
pub fn knowledge(heap: Global, table: &Checked, known: &[Known]) -> Result<String, AllocError>
    ensures { IfOk result (λ s. string_bytes s ≡ knowledge_text (view table.now) known.now) }
{
    let mut text = String::from_str(heap, HEADING)?;
    for (i, known) in known.iter().enumerate() {
        push_entry(&mut text, Entry::new(table, i, *known))?;
    }
    Ok(text)
}
