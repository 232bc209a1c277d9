// Nodes written out as formulas.
//
// Truths are written `not a`, `a and b`, `a or b`, `a implies b`, `a iff b`, `previously a`, `once a`, `always a`, `a since b`
// and `a at switch s`. Numbers are joined and cut by `a + b` and `a - b` and compared by `a <= b` and `a = b`;
// port sets by `a union b`, `a minus b`, `a within b` and `a = b`.
ghost use Rattle.inspect.specs.Forms.{prefix_word, infix_word, infix_strength, form_of, form_strength, is_leaf, form_at, Deep, rank_of, bracket_text, formula_text};
ghost use Rattle.inspect.specs.declared.formula.Strength.TheVariants.{Whole};
ghost use Rattle.std.specs.Fmt.{WritesOnOk};
ghost use Rattle.std.specs.Prelude.{◌≡◌, ◌-◌, Some, nat_le};

use crate::value::Value;
use std::fmt;
use table::kind::Kind;
use table::node::Node;

// What stands before its operand.
#[derive(Clone, Copy, Debug, PartialEq)]
pub enum Prefix {
    Not,
    Previously,
    Once,
    Always,
}

// What stands between its operands.
#[derive(Clone, Copy, Debug, PartialEq)]
pub enum Infix {
    And,
    Or,
    Implies,
    Iff,
    Since,
    Within,
    Same,
    Join,
    Cut,
}

// How a node is written. Operands are numbers of nodes.
#[derive(Clone, Copy, Debug, PartialEq)]
pub enum Form {
    Truth(bool),
    Register(usize),
    Constant(u32),
    Prefix(Prefix, usize),
    Infix(Infix, usize, usize),
    // An operand, and the switch that it is taken at.
    At(usize, usize),
    // A node that is shown by its number alone.
    Name(usize),
}

// How tightly a form holds its operands together. An operand that does so no tighter than the form around it stands in
// parentheses.
#[derive(Clone, Copy, Debug, PartialEq, Eq, PartialOrd, Ord)]
pub enum Strength {
    Whole,
    Connective,
    Comparison,
    Sum,
    Tight,
    Leaf,
}

impl Strength {
    // Whether a form of this strength stands in parentheses within one of the strength `around`.
    fn is_bracketed(self, around: Strength) -> bool
        ensures { result ≡ nat_le (rank_of self) (rank_of around) }
    {
        self <= around
    }
}

impl fmt::Display for Prefix {
    ghost output = { λ x. Some (prefix_word x) };

    fn fmt<W: fmt::Write>(&self, f: &mut fmt::Formatter<W>) -> fmt::Result {
        f.write_str(match self {
            Prefix::Not => "not",
            Prefix::Previously => "previously",
            Prefix::Once => "once",
            Prefix::Always => "always",
        })
    }
}

impl Infix {
    // No `Display`, which has no place for the kind.
    pub fn word(self, kind: Kind) -> &'static str
        ensures { result.now ≡ infix_word self kind }
    {
        match (self, kind) {
            (Infix::And, _) => "and",
            (Infix::Or, _) => "or",
            (Infix::Implies, _) => "implies",
            (Infix::Iff, _) => "iff",
            (Infix::Since, _) => "since",
            (Infix::Same, _) => "=",
            (Infix::Within, Kind::Numbers) => "<=",
            (Infix::Within, Kind::Ports) => "within",
            (Infix::Join, Kind::Numbers) => "+",
            (Infix::Join, Kind::Ports) => "union",
            (Infix::Cut, Kind::Numbers) => "-",
            (Infix::Cut, Kind::Ports) => "minus",
        }
    }

    pub fn strength(self) -> Strength
        ensures { result ≡ infix_strength self }
    {
        match self {
            Infix::And | Infix::Or | Infix::Implies | Infix::Iff | Infix::Since => {
                Strength::Connective
            }
            Infix::Within | Infix::Same => Strength::Comparison,
            Infix::Join | Infix::Cut => Strength::Sum,
        }
    }
}

impl From<Node> for Form {
    ghost from_gives = { λ node form. form ≡ form_of node };

    fn from(node: Node) -> Form {
        match node {
            Node::Truth(value) => Form::Truth(value),
            Node::Not(a) => Form::Prefix(Prefix::Not, a),
            Node::And(a, b) => Form::Infix(Infix::And, a, b),
            Node::Or(a, b) => Form::Infix(Infix::Or, a, b),
            Node::Implies(a, b) => Form::Infix(Infix::Implies, a, b),
            Node::Iff(a, b) => Form::Infix(Infix::Iff, a, b),
            Node::Previously(a) => Form::Prefix(Prefix::Previously, a),
            Node::Once(a) => Form::Prefix(Prefix::Once, a),
            Node::Always(a) => Form::Prefix(Prefix::Always, a),
            Node::Since(a, b) => Form::Infix(Infix::Since, a, b),
            Node::TruthAt(switch, a) => Form::At(a, switch),
            Node::Within(a, b) => Form::Infix(Infix::Within, a, b),
            Node::Same(a, b) => Form::Infix(Infix::Same, a, b),
            Node::Constant(word) => Form::Constant(word),
            Node::Register(register) => Form::Register(register),
            Node::Join(a, b) => Form::Infix(Infix::Join, a, b),
            Node::Cut(a, b) => Form::Infix(Infix::Cut, a, b),
            Node::ReadingAt(switch, a) => Form::At(a, switch),
        }
    }
}

impl Form {
    pub fn strength(self) -> Strength
        ensures { result ≡ form_strength self }
    {
        match self {
            Form::Prefix(_, _) | Form::At(_, _) => Strength::Tight,
            Form::Infix(infix, _, _) => infix.strength(),
            _ => Strength::Leaf,
        }
    }

    // Whether it has no operands.
    pub fn is_leaf(self) -> bool
        ensures { result ≡ is_leaf self }
    {
        !matches!(
            self,
            Form::Prefix(_, _) | Form::Infix(_, _, _) | Form::At(_, _)
        )
    }
}

// A node to be written, with those that it may name.
#[derive(Clone, Copy)]
pub struct Formula<'a> {
    pub kind: Kind,
    pub nodes: &'a [Node],
    // The node's number.
    pub node: usize,
    // How many nodes, one within another, are written out; those below are shown by their numbers.
    pub depth: usize,
}

impl<'a> Formula<'a> {
    // How the node is written: a leaf is itself at any depth.
    pub fn form(self) -> Form
        ensures value { result ≡ form_at self.entry.nodes.now self.entry.node self.entry.depth }
        ensures deep { Deep result self.entry.depth }
    {
        let Some(node) = self.nodes.get(self.node) else {
            return Form::Name(self.node);
        };
        let form = Form::from(*node);
        if self.depth == 0 && !form.is_leaf() {
            Form::Name(self.node)
        } else {
            form
        }
    }

    // An operand of the node.
    fn operand(self, node: usize) -> Formula<'a>
        ensures kind { result.kind ≡ self.entry.kind }
        ensures nodes { result.nodes.now ≡ self.entry.nodes.now }
        ensures node { result.node ≡ node }
        ensures depth { result.depth ≡ self.entry.depth - 1 }
    {
        Formula {
            node,
            depth: self.depth.saturating_sub(1),
            ..self
        }
    }
}

// Writes a parenthesis where the formula is in parentheses.
fn write_bracket<W: fmt::Write>(
    bracketed: bool,
    bracket: &str,
    f: &mut fmt::Formatter<W>,
) -> fmt::Result
    ensures { WritesOnOk W.write_str_gives f.old result (bracket_text bracketed bracket.now) f.new }
{
    f.write_str(if bracketed { bracket } else { "" })
}

// Writes a formula that stands within a form of the strength `around`.
fn show<W: fmt::Write>(
    formula: Formula<'_>,
    around: Strength,
    f: &mut fmt::Formatter<W>,
) -> fmt::Result
    ensures { WritesOnOk W.write_str_gives f.old result (formula_text formula.entry.kind formula.entry.nodes.now formula.entry.depth formula.entry.node around) f.new }
{
    let kind = formula.kind;
    let form = formula.form();
    let strength = form.strength();
    let bracketed = strength.is_bracketed(around);
    write_bracket(bracketed, "(", f)?;
    match form {
        Form::Truth(value) => write!(f, "{value}")?,
        Form::Register(register) => write!(f, "register {register}")?,
        Form::Constant(word) => {
            let value = Value { kind, word };
            write!(f, "{value}")?
        }
        Form::Name(node) => write!(f, "n{node}")?,
        Form::Prefix(prefix, a) => {
            write!(f, "{prefix} ")?;
            show(formula.operand(a), strength, f)?;
        }
        Form::Infix(infix, a, b) => {
            let word = infix.word(kind);
            show(formula.operand(a), strength, f)?;
            write!(f, " {word} ")?;
            show(formula.operand(b), strength, f)?;
        }
        Form::At(a, switch) => {
            show(formula.operand(a), strength, f)?;
            write!(f, " at switch {switch}")?;
        }
    }
    write_bracket(bracketed, ")", f)
}

impl fmt::Display for Formula<'_> {
    ghost output = { λ x. Some (formula_text x.kind x.nodes.now x.depth x.node Whole) };

    fn fmt<W: fmt::Write>(&self, f: &mut fmt::Formatter<W>) -> fmt::Result {
        show(*self, Strength::Whole, f)
    }
}
