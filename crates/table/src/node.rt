// The nodes of a rule table: formulas and readings, each over nodes before it.
ghost use Rattle.std.specs.Prelude.{◌≡◌, false};
ghost use Rattle.table.specs.declared.node.Node.TheVariants.{Truth};

// A node. Numbers of nodes, switches and registers are as the table has them.
#[derive(Clone, Copy)]
pub enum Node {
    Truth(bool),
    Not(usize),
    And(usize, usize),
    Or(usize, usize),
    Implies(usize, usize),
    // Equal truth.
    Iff(usize, usize),
    Previously(usize),
    Once(usize),
    Always(usize),
    Since(usize, usize),
    // A switch, and a truth node judged at its newest known state.
    TruthAt(usize, usize),
    Within(usize, usize),
    Same(usize, usize),
    Constant(u32),
    Register(usize),
    Join(usize, usize),
    Cut(usize, usize),
    // A switch, and a reading node at its newest known state.
    ReadingAt(usize, usize),
}

// What a place that no node was put into holds.
impl Default for Node {
    ghost is_default = { λ node. node ≡ Truth false };

    fn default() -> Node {
        Node::Truth(false)
    }
}

// A truth node that has to hold at a switch.
#[derive(Clone, Copy, Default)]
pub struct Rule {
    pub switch: usize,
    pub node: usize,
}

pub mod decode;
