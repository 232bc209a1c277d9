// What copies are for: a code, and numbers of switches and nodes that a table may have.
ghost use Rattle.std.specs.Prelude.{◌≡◌, ◌+◌, ◌<◌, ◌≤◌, IfErr, IfOk, IfSome, is_ok, is_some};
ghost use Rattle.carriers.specs.Copies.{copy_length, record_offset, record_size};
ghost use Rattle.carriers.specs.CopyCalls.{in_range, known};
ghost use Rattle.step.specs.Records.{hand_length, record_length, record_start, records_length};
ghost use Rattle.table.specs.Limits.{max_nodes, max_switches};
ghost use Rattle.table.specs.declared.fault.Reason.TheVariants.{TableField};

use table::fault::Reason;
use table::kind::Kind;
use table::limits::{MAX_NODES, MAX_SWITCHES};

#[derive(Clone, Copy)]
pub struct Format {
    pub(crate) code: u32,
    pub(crate) switches: usize,
    pub(crate) nodes: usize,
    ghost few_switches: { switches ≤ max_switches },
    ghost few_nodes: { nodes ≤ max_nodes },
}

impl Format {
    // The format with these numbers, if they are in range; the code is not looked at.
    pub(crate) fn of(code: u32, switches: u32, nodes: u32) -> Option<Format>
        ensures when { is_some result ≡ in_range switches nodes }
        ensures made { IfSome result (λ f. (f.code ≡ code) × (f.switches ≡ switches) × (f.nodes ≡ nodes)) }
    {
        if (1..=MAX_SWITCHES).contains(&switches) && (1..=MAX_NODES).contains(&nodes) {
            Some(Format {
                code,
                switches: switches as usize,
                nodes: nodes as usize,
            })
        } else {
            None
        }
    }

    // The same, if a delivered kind has the code.
    pub(crate) fn known(code: u32, switches: u32, nodes: u32) -> Result<Format, Reason>
        ensures when { is_ok result ≡ known code switches nodes }
        ensures made { IfOk result (λ f. (f.code ≡ code) × (f.switches ≡ switches) × (f.nodes ≡ nodes)) }
        ensures why { IfErr result (λ reason. reason ≡ TableField) }
    {
        Kind::try_from(code)?;
        Format::of(code, switches, nodes).ok_or(Reason::TableField)
    }

    // The words of a hand.
    pub(crate) fn hand_length(self) -> usize
        ensures { result ≡ hand_length self.switches self.nodes }
    {
        1 + self.switches * (self.nodes + 1)
    }

    // The bytes of a copy.
    pub(crate) fn copy_length(self) -> usize
        ensures value { result ≡ copy_length self.switches self.nodes }
        ensures small { result ≤ 3212 }
    {
        12 + self.switches * (8 + 4 * self.nodes)
    }

    // Where record `j` begins, in the words of a hand after its sender. By hand, as the step's own `Records` is private to its crate.
    #[tactic(auto, using(crate::proofs::Rows::row_room))]
    pub(crate) fn start_in_hand(self, j: usize) -> usize
        requires { j < self.switches }
        ensures value { result ≡ record_start self.nodes j }
        ensures room { result + record_length self.nodes ≤ records_length self.switches self.nodes }
        ensures small { result ≤ 784 }
    {
        j * (self.nodes + 1)
    }

    // Where it begins in the bytes of a copy.
    #[tactic(auto, using(crate::proofs::Rows::row_room, crate::proofs::Rows::row_most))]
    pub(crate) fn start_in_bytes(self, j: usize) -> usize
        requires { j < self.switches }
        ensures value { result ≡ record_offset self.nodes j }
        ensures room { result + record_size self.nodes ≤ copy_length self.switches self.nodes }
        ensures small { result ≤ 3212 }
    {
        12 + j * (8 + 4 * self.nodes)
    }
}
