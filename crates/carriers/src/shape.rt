// What copies a pool is for, and how many places it has for them.
ghost use Rattle.std.specs.Prelude.{◌≡◌, ◌<◌, ◌≤◌};
ghost use Rattle.step.specs.Records.{hand_length};
ghost use Rattle.table.specs.Limits.{max_nodes, max_switches};

use crate::format::Format;

// A pool for numbers of switches or nodes that are out of range has no places. No `Option` of a format: figures answer the numbers
// that the pool was opened with.
#[derive(Clone, Copy)]
pub struct Shape {
    pub(crate) code: u32,
    pub(crate) switches: u32,
    pub(crate) nodes: u32,
    pub(crate) capacity: usize,
    ghost few_switches: { 0 < capacity → switches ≤ max_switches },
    ghost few_nodes: { 0 < capacity → nodes ≤ max_nodes },
}

impl Shape {
    // The words of a hand; no format's, since the numbers may be out of range.
    pub(crate) fn hand_length(self) -> usize
        ensures { result ≡ hand_length self.switches self.nodes }
    {
        1 + self.switches as usize * (self.nodes as usize + 1)
    }

    // The format of the copies in its places.
    pub(crate) fn format(self) -> Format
        requires { 0 < self.capacity }
        ensures code { result.code ≡ self.code }
        ensures switches { result.switches ≡ self.switches }
        ensures nodes { result.nodes ≡ self.nodes }
    {
        Format {
            code: self.code,
            switches: self.switches as usize,
            nodes: self.nodes as usize,
        }
    }
}
