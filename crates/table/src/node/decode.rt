// A node from its three words, and whether it fits its place in the table.
ghost use Rattle.std.specs.Prelude.{◌≡◌, ◌<◌, cond, Some, None};
ghost use Rattle.table.specs.Nodes.{decoded, unused, truth_constant, register, is_truth, truth_node, reading_node, node_fits, rule_fits};

use crate::limits::REGISTERS;
use crate::node::{Node, Rule};

// The node, where the word that its kind does not use is 0.
fn lone(node: Node, rest: u32) -> Option<Node>
    ensures { result ≡ unused rest node }
{
    if rest == 0 { Some(node) } else { None }
}

// False for 0, true for 1.
fn truth_constant(a: u32, rest: u32) -> Option<Node>
    ensures { result ≡ truth_constant a rest }
{
    match a {
        0 => lone(Node::Truth(false), rest),
        1 => lone(Node::Truth(true), rest),
        _ => None,
    }
}

// A register that a switch has.
fn register(index: usize, rest: u32) -> Option<Node>
    ensures { result ≡ register index rest }
{
    if index < REGISTERS {
        lone(Node::Register(index), rest)
    } else {
        None
    }
}

// A truth node that `earlier` has at `a`. Two functions, as the definitions have two: one with the sort as a parameter would be
// called with true or false, which says less than a name.
#[tactic(auto, using(std::proofs::lemmas::List::get_or_read), unfolding(crate::specs::Nodes::truth_node))]
fn truth_node(earlier: &[Node], a: usize) -> bool
    ensures { result ≡ truth_node earlier.now a }
{
    a < earlier.len() && earlier[a].is_truth()
}

// A reading node that `earlier` has at `a`.
#[tactic(auto, using(std::proofs::lemmas::List::get_or_read), unfolding(crate::specs::Nodes::reading_node))]
fn reading_node(earlier: &[Node], a: usize) -> bool
    ensures { result ≡ reading_node earlier.now a }
{
    a < earlier.len() && !earlier[a].is_truth()
}

impl Node {
    // Not `TryFrom`: three words are no type of their own, and a bad node has no reason but its place.
    // The node with these three words, or none where the kind does not exist or a word is not allowed.
    pub fn decode(kind: u32, a: u32, b: u32) -> Option<Node>
        ensures { result ≡ decoded kind a b }
    {
        let x = a as usize;
        let y = b as usize;
        match kind {
            0 => truth_constant(a, b),
            1 => lone(Node::Not(x), b),
            2 => Some(Node::And(x, y)),
            3 => Some(Node::Or(x, y)),
            4 => Some(Node::Implies(x, y)),
            5 => Some(Node::Iff(x, y)),
            6 => lone(Node::Previously(x), b),
            7 => lone(Node::Once(x), b),
            8 => lone(Node::Always(x), b),
            9 => Some(Node::Since(x, y)),
            10 => Some(Node::TruthAt(x, y)),
            11 => Some(Node::Within(x, y)),
            12 => Some(Node::Same(x, y)),
            20 => lone(Node::Constant(a), b),
            21 => register(x, b),
            22 => Some(Node::Join(x, y)),
            23 => Some(Node::Cut(x, y)),
            24 => Some(Node::ReadingAt(x, y)),
            _ => None,
        }
    }

    // Whether the node's value is a truth; else it is a reading.
    pub fn is_truth(self) -> bool
        ensures { result ≡ is_truth self }
    {
        match self {
            Node::Constant(_)
            | Node::Register(_)
            | Node::Join(_, _)
            | Node::Cut(_, _)
            | Node::ReadingAt(_, _) => false,
            _ => true,
        }
    }

    // Whether the node names only switches that there are and earlier nodes of the right sort. Inlined where a table is read, for
    // speed.
    #[inline(always)]
    pub fn fits(self, switches: usize, earlier: &[Node]) -> bool
        ensures { result ≡ node_fits switches earlier.now self }
    {
        match self {
            Node::Truth(_) | Node::Constant(_) | Node::Register(_) => true,
            Node::Not(a) | Node::Previously(a) | Node::Once(a) | Node::Always(a) => {
                truth_node(earlier, a)
            }
            Node::And(a, b)
            | Node::Or(a, b)
            | Node::Implies(a, b)
            | Node::Iff(a, b)
            | Node::Since(a, b) => truth_node(earlier, a) && truth_node(earlier, b),
            Node::TruthAt(s, b) => s < switches && truth_node(earlier, b),
            Node::Within(a, b) | Node::Same(a, b) | Node::Join(a, b) | Node::Cut(a, b) => {
                reading_node(earlier, a) && reading_node(earlier, b)
            }
            Node::ReadingAt(s, b) => s < switches && reading_node(earlier, b),
        }
    }
}

impl Rule {
    // Whether the rule is at a switch that there is and about a truth node.
    pub fn fits(self, switches: usize, nodes: &[Node]) -> bool
        ensures { result ≡ rule_fits switches nodes.now self }
    {
        self.switch < switches && truth_node(nodes, self.node)
    }
}
