// Reads the parts of a rule table, in their order.
ghost use Rattle.std.specs.Prelude.{◌≡◌, ℕ, ◌+◌, ◌*◌, ◌≤◌, List, [], length, is_ok, IfOk, OnOk, Result};
ghost use Rattle.table.specs.Limits.{max_nodes, max_rules, max_switches, register_count};
ghost use Rattle.table.specs.Readers.{Advanced};
ghost use Rattle.table.specs.Tables.{header_of, items_from, judged, node_at, node_size, nodes_from, nodes_start, rule_at, rule_size, rules_of, rules_start, starts_of, starts_start, words_at, words_from};
ghost use Rattle.table.specs.Wire.{counted, filled};
ghost use Rattle.table.specs.declared.fault.Fault.{Fault};
ghost use Rattle.table.specs.declared.node.Node.{Node};
ghost use Rattle.table.specs.declared.fault.Reason.TheVariants.{TableField, TableLength};

use crate::fault::{Fault, Reason};
use crate::limits::{MAX_NODES, MAX_RULES, MAX_SWITCHES, REGISTERS};
use crate::node::{Node, Rule};
use crate::reader::{Reader, Refusals};
use crate::table::{Nodes, Rules};
use arrayvec::ArrayVec;
use readings::reading::Reading;

// Why a reader of a rule table refuses.
#[derive(Drop)]
pub(crate) struct TableRefusals;

impl Refusals for TableRefusals {
    ghost short = { λ _. TableLength };

    ghost wrong = { λ _. TableField };

    fn short(&self) -> Reason {
        Reason::TableLength
    }

    fn wrong(&self) -> Reason {
        Reason::TableField
    }
}

pub(crate) type TableReader<'a> = Reader<'a, TableRefusals>;

// The numbers of switches and nodes.
#[derive(Clone, Copy)]
pub struct Header {
    pub switches: usize,
    pub nodes: usize,
}

// The node, if it may stand after those of `earlier`.
#[inline(always)]
fn judge(node: Option<Node>, switches: usize, earlier: &[Node]) -> Result<Node, Fault>
    ensures { result ≡ judged switches earlier.now (length earlier.now) node }
{
    match node {
        Some(x) if x.fits(switches, earlier) => Ok(x),
        _ => Err(Reason::Node.at(earlier.len())),
    }
}

// What stands in an array of a table.
pub(crate) trait Element: Default + Drop {
    ghost size: { ℕ };

    // What is read at an offset, in a table of so many switches with these nodes, after the elements before it.
    ghost read: { ℕ → List Node → List ℕ → ℕ → List Self → Result Self Fault };

    fn read(
        reader: &mut TableReader,
        switches: usize,
        nodes: &[Node],
        earlier: &[Self],
    ) -> Result<Self, Fault>
        ensures value { result ≡ read switches nodes.now reader.old.bytes.now reader.old.at earlier.now }
        ensures reader { Advanced reader.old reader.new (is_ok result) size };
}

impl Element for Node {
    ghost size = { node_size };

    ghost read = { λ switches _ bytes at earlier. node_at switches bytes at earlier };

    #[inline(always)]
    fn read(
        reader: &mut TableReader,
        switches: usize,
        _nodes: &[Node],
        earlier: &[Node],
    ) -> Result<Node, Fault> {
        let kind = reader.field()?;
        let a = reader.field()?;
        let b = reader.field()?;
        judge(Node::decode(kind, a, b), switches, earlier)
    }
}

impl Element for Rule {
    ghost size = { rule_size };

    ghost read = { λ switches nodes bytes at earlier. rule_at switches nodes bytes at (length earlier) };

    fn read(
        reader: &mut TableReader,
        switches: usize,
        nodes: &[Node],
        earlier: &[Rule],
    ) -> Result<Rule, Fault> {
        let switch = reader.field()? as usize;
        let node = reader.field()? as usize;
        let rule = Rule { switch, node };
        if !rule.fits(switches, nodes) {
            return Err(Reason::Rule.at(earlier.len()));
        }
        Ok(rule)
    }
}

// Fills the array with the next `count` elements. Reader, switches and nodes are no struct: the nodes come in once the reader has
// read them. The array is lent: one in the answer would be moved twice, which takes longer than to read a small table, and firmware
// would have to bring `memcpy` for it. Inlined, with what it calls for a node, for speed: the array's length is then known where
// the array was made, and not read back from memory.
#[inline(always)]
fn read_array<T: Element, const N: usize>(
    reader: &mut TableReader,
    switches: usize,
    nodes: &[Node],
    count: usize,
    array: &mut ArrayVec<T, N>,
) -> Result<(), Fault>
    requires { count ≤ N }
    ensures value { filled result array.new.items ≡ items_from (T.read switches nodes.now reader.old.bytes.now) T.size reader.old.at count [] }
    ensures many { OnOk result (length array.new.items ≡ count) }
    ensures reader { Advanced reader.old reader.new (is_ok result) (count * T.size) }
{
    array.clear();
    for _i in 0..count {
        let element = T::read(reader, switches, nodes, array)?;
        array.push(element);
    }
    Ok(())
}

// Fills `nodes` with the next `count` nodes.
#[inline(always)]
pub(crate) fn read_nodes(
    reader: &mut TableReader,
    switches: usize,
    count: usize,
    nodes: &mut Nodes,
) -> Result<(), Fault>
    requires { count ≤ max_nodes }
    ensures value { filled result nodes.new.items ≡ nodes_from switches reader.old.bytes.now reader.old.at count [] }
    ensures many { OnOk result (length nodes.new.items ≡ count) }
    ensures reader { Advanced reader.old reader.new (is_ok result) (count * node_size) }
{
    read_array::<Node, 48>(reader, switches, &[], count, nodes)
}

// Reads past `count` words. Not shared with the check of a copy, which says each field by itself: the table's law says the
// words together, so one function for both would need a third statement and a proof for each.
fn read_words(reader: &mut TableReader, count: usize) -> Result<(), Fault>
    ensures value { filled result (words_at reader.old.bytes.now reader.old.at count) ≡ words_from reader.old.bytes.now reader.old.at count [] }
    ensures reader { Advanced reader.old reader.new (is_ok result) (count * 4) }
{
    for _i in 0..count {
        reader.field()?;
    }
    Ok(())
}

// The kind's code, the number of switches and the number of nodes.
pub(crate) fn read_header<K: Reading>(reader: &mut TableReader) -> Result<Header, Fault>
    requires { reader.old.at ≡ 0 }
    ensures value { result ≡ header_of K.CODE reader.old.bytes.now }
    ensures range { IfOk result (λ h. (h.switches ≤ max_switches) × (h.nodes ≤ max_nodes)) }
    ensures reader { Advanced reader.old reader.new (is_ok result) nodes_start }
{
    reader.field_between(K::CODE, K::CODE)?;
    let switches = reader.field_between(1, MAX_SWITCHES)? as usize;
    let nodes = reader.field_between(1, MAX_NODES)? as usize;
    Ok(Header { switches, nodes })
}

// Reads the rules' count, and fills `rules` with the rules.
pub(crate) fn read_all_rules(
    reader: &mut TableReader,
    switches: usize,
    nodes: &[Node],
    rules: &mut Rules,
) -> Result<(), Fault>
    requires { reader.old.at ≡ nodes_start + length nodes.now * node_size }
    ensures value { filled result rules.new.items ≡ rules_of switches nodes.now reader.old.bytes.now }
    ensures few { OnOk result (length rules.new.items ≤ max_rules) }
    ensures bytes { reader.new.bytes.now ≡ reader.old.bytes.now }
    ensures at { OnOk result (reader.new.at ≡ reader.old.at + (4 + length rules.new.items * rule_size)) }
{
    let count = reader.field_between(0, MAX_RULES)? as usize;
    read_array::<Rule, 16>(reader, switches, nodes, count, rules)
}

// Reads past the starting words' count and the words.
pub(crate) fn read_starts(
    reader: &mut TableReader,
    switches: usize,
    nodes: usize,
    rules: usize,
) -> Result<(), Fault>
    requires after { reader.old.at ≡ rules_start nodes + rules * rule_size }
    requires few { switches ≤ max_switches }
    ensures value { filled result (words_at reader.old.bytes.now (starts_start nodes rules) (register_count * switches)) ≡ starts_of switches nodes rules reader.old.bytes.now }
    ensures reader { Advanced reader.old reader.new (is_ok result) (4 + register_count * switches * 4) }
{
    let words = REGISTERS * switches;
    reader.field_between(words as u32, words as u32)?;
    read_words(reader, words)
}
