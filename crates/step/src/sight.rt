// What a switch sees while it works out a node's word.
ghost use Rattle.std.specs.Prelude.{◌<◌, ◌≤◌, length};
ghost use Rattle.table.specs.Limits.{register_count};

use crate::records::Records;

// Where a switch's words are worked out: the records of all switches, and the own registers.
#[derive(Clone, Copy)]
pub(crate) struct Place<'a> {
    pub(crate) switch: usize,
    pub(crate) records: Records<'a>,
    pub(crate) registers: &'a [u32],
    ghost there: { switch < records.switches },
    ghost own: { register_count ≤ length registers.now },
}

// That place, and the own new words so far.
#[derive(Clone, Copy)]
pub(crate) struct Sight<'a> {
    pub(crate) place: Place<'a>,
    pub(crate) words: &'a [u32],
}

mod eval;

pub(crate) use eval::Past;
