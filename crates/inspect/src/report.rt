// What is printed of a table.
ghost use Rattle.inspect.specs.Reports.{newline, kind_name, summary_of, summary_text, subject, complaint, refusal_text};
ghost use Rattle.std.specs.Prelude.{◌≡◌, false, ◌++◌, IfOk, Some, string_bytes};
ghost use Rattle.table.specs.Views.{view};

use crate::formula::Formula;
use crate::value::Value;
use std::alloc::{AllocError, Global};
use std::fmt;
use table::fault::{Fault, Reason};
use table::kind::Kind;
use table::limits::REGISTERS;
use table::table::Checked;

// How many nodes, one within another, a rule's formula writes out.
const DEPTH: usize = 6;

// The figures of an accepted table.
#[derive(Clone, Copy)]
pub struct Summary {
    pub kind: Kind,
    pub code: u32,
    pub switches: usize,
    pub nodes: usize,
    pub rules: usize,
    pub length: usize,
}

// No `Display`: the kind is another crate's type, and the name this program's.
fn kind_name(kind: Kind) -> &'static str
    ensures { result.now ≡ kind_name kind }
{
    match kind {
        Kind::Numbers => "numbers",
        Kind::Ports => "port sets",
    }
}

impl fmt::Display for Summary {
    ghost output = { λ s. Some (summary_text s) };

    fn fmt<W: fmt::Write>(&self, f: &mut fmt::Formatter<W>) -> fmt::Result {
        let Summary {
            kind,
            code,
            switches,
            nodes,
            rules,
            length,
        } = *self;
        let kind = kind_name(kind);
        write!(
            f,
            "table accepted\nkind      {kind} (code {code})\nswitches  {switches}\nnodes     {nodes}\nrules     {rules}\nbytes     {length}",
        )
    }
}

// An accepted table. It is displayed as its nodes, rules and starting words.
#[derive(Clone, Copy)]
pub struct Accepted<'a, 'b> {
    pub kind: Kind,
    pub table: &'a Checked<'b>,
}

impl Accepted<'_, '_> {
    pub fn summary(self) -> Summary
        ensures { result ≡ summary_of self.entry.kind (view self.entry.table.now) }
    {
        let Accepted { kind, table } = self;
        Summary {
            kind,
            code: table.code(),
            switches: table.switches(),
            nodes: table.nodes().len(),
            rules: table.rules().len(),
            length: table.length(),
        }
    }

    // What is printed of it, without what the switches start with.
    pub fn text(self, heap: Global, print: bool) -> Result<String, AllocError>
        ensures { print ≡ false → IfOk result (λ s. string_bytes s ≡ summary_text (summary_of self.entry.kind (view self.entry.table.now)) ++ newline) }
    {
        let summary = self.summary();
        if print {
            format!(in heap; "{summary}\n{self}")
        } else {
            format!(in heap; "{summary}\n")
        }
    }

    fn write_nodes<W: fmt::Write>(&self, f: &mut fmt::Formatter<W>) -> fmt::Result {
        let nodes = self.table.nodes();
        f.write_str("\nnodes\n")?;
        // The numbers are what is printed, and the formulas take them.
        for node in 0..nodes.len() {
            let formula = Formula {
                kind: self.kind,
                nodes,
                node,
                depth: 1,
            };
            write!(f, "  n{node}  {formula}\n")?;
        }
        Ok(())
    }

    fn write_rules<W: fmt::Write>(&self, f: &mut fmt::Formatter<W>) -> fmt::Result {
        let nodes = self.table.nodes();
        f.write_str("\nrules\n")?;
        for (number, rule) in self.table.rules().iter().enumerate() {
            let switch = rule.switch;
            let formula = Formula {
                kind: self.kind,
                nodes,
                node: rule.node,
                depth: DEPTH,
            };
            write!(f, "  rule {number} at switch {switch}: {formula}\n")?;
        }
        Ok(())
    }

    fn write_starts<W: fmt::Write>(&self, f: &mut fmt::Formatter<W>) -> fmt::Result {
        f.write_str("\nstarting words\n")?;
        // By number: there is no list of switches.
        for switch in 0..self.table.switches() {
            write!(f, "  switch {switch}:")?;
            for word in (0..REGISTERS).filter_map(|r| self.table.starting_word(switch, r)) {
                let value = Value {
                    kind: self.kind,
                    word,
                };
                write!(f, " {value}")?;
            }
            f.write_str("\n")?;
        }
        Ok(())
    }
}

impl fmt::Display for Accepted<'_, '_> {
    fn fmt<W: fmt::Write>(&self, f: &mut fmt::Formatter<W>) -> fmt::Result {
        self.write_nodes(f)?;
        self.write_rules(f)?;
        self.write_starts(f)
    }
}

// What a refusal's place is, in the words before it. No `Display`, since a reason, another crate's type, has two texts here.
fn subject(reason: Reason) -> &'static str
    ensures { result.now ≡ subject reason }
{
    match reason {
        Reason::TableLength => "the table ends before the field at byte",
        Reason::TableField => "the field at byte",
        Reason::Node => "node",
        Reason::Rule => "rule",
        // A table's check has no other reason.
        _ => "place",
    }
}

// What is wrong at that place, in the words after it.
fn complaint(reason: Reason) -> &'static str
    ensures { result.now ≡ complaint reason }
{
    match reason {
        Reason::TableLength => ", or has bytes left from there",
        Reason::TableField => " is out of range or names a foreign kind",
        Reason::Node => " is not allowed: its kind, a switch, a register or a node that it names",
        Reason::Rule => " names a switch that the table lacks, or a node that is no truth node",
        _ => " is refused",
    }
}

// A refusal, first as two numbers and then in words.
#[derive(Clone, Copy)]
pub struct Refusal {
    pub fault: Fault,
}

impl fmt::Display for Refusal {
    ghost output = { λ x. Some (refusal_text x.fault) };

    fn fmt<W: fmt::Write>(&self, f: &mut fmt::Formatter<W>) -> fmt::Result {
        let Fault { reason, place } = self.fault;
        let number = reason.number();
        let before = subject(reason);
        let after = complaint(reason);
        write!(f, "table refused {number} {place}\n{before} {place}{after}")
    }
}

// What is printed of a refused table.
pub fn refused(heap: Global, fault: Fault) -> Result<String, AllocError>
    ensures { IfOk result (λ s. string_bytes s ≡ refusal_text fault ++ newline) }
{
    let refusal = Refusal { fault };
    format!(in heap; "{refusal}\n")
}
