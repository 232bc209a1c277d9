// The worked table of three switches: what a place for a checked table starts as.
ghost use Rattle.table.specs.Views.{view};
ghost use Rattle.table.specs.Worked.{worked_table};
ghost use Rattle.std.specs.Prelude.{◌≡◌};

use crate::node::{Node, Rule};
use crate::table::{Checked, Nodes, Rules};
use arrayvec::ArrayVec;

// Switch 1 has to know no reading of switch 0 above its own, now and ever.
static BYTES: [u8; 172] = [
    // code, switches, nodes
    0, 0, 0, 1, 0, 0, 0, 3, 0, 0, 0, 4,
    // register 0
    0, 0, 0, 21, 0, 0, 0, 0, 0, 0, 0, 0,
    // node 0 at switch 0
    0, 0, 0, 24, 0, 0, 0, 0, 0, 0, 0, 0,
    // node 1 within node 0
    0, 0, 0, 11, 0, 0, 0, 1, 0, 0, 0, 0,
    // always node 2
    0, 0, 0, 8, 0, 0, 0, 2, 0, 0, 0, 0,
    // one rule: node 3 at switch 1
    0, 0, 0, 1, 0, 0, 0, 1, 0, 0, 0, 3,
    // 24 starting words
    0, 0, 0, 24, 0, 0, 0, 5, 0, 0, 0, 0, 0, 0, 0, 0, 0, 0, 0, 0, 0, 0, 0, 0, 0, 0, 0, 0, 0, 0, 0,
    0, 0, 0, 0, 0, 0, 0, 0, 7, 0, 0, 0, 0, 0, 0, 0, 0, 0, 0, 0, 0, 0, 0, 0, 0, 0, 0, 0, 0, 0, 0, 0,
    0, 0, 0, 0, 0, 0, 0, 0, 0, 0, 0, 0, 0, 0, 0, 0, 0, 0, 0, 0, 0, 0, 0, 0, 0, 0, 0, 0, 0, 0, 0, 0,
    0, 0, 0, 0, 0,
];

// Register 0, its reading at switch 0, whether that is within the own one, and whether it always was.
fn nodes() -> Nodes
    ensures { result.items ≡ worked_table.nodes }
{
    let mut nodes = ArrayVec::new();
    nodes.push(Node::Register(0));
    nodes.push(Node::ReadingAt(0, 0));
    nodes.push(Node::Within(1, 0));
    nodes.push(Node::Always(2));
    nodes
}

// The last node has to hold at switch 1.
fn rules() -> Rules
    ensures { result.items ≡ worked_table.rules }
{
    let mut rules = ArrayVec::new();
    rules.push(Rule { switch: 1, node: 3 });
    rules
}

impl<'a> Checked<'a> {
    // The worked table.
    pub fn worked() -> Checked<'a>
        ensures { view result ≡ worked_table }
    {
        Checked {
            bytes: &BYTES,
            switches: 3,
            nodes: nodes(),
            rules: rules(),
        }
    }
}
