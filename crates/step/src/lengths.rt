// How long a block and a hand of a table are, in words.
ghost use Rattle.std.specs.Prelude.{◌≡◌, length};
ghost use Rattle.step.specs.Records.{block_length, hand_length};
ghost use Rattle.table.specs.Views.{view};

use table::limits::REGISTERS;
use table::table::Checked;

// The records of all switches, and then the registers.
pub fn block_length(table: &Checked) -> usize
    ensures { result ≡ block_length (view table.now).switches (length (view table.now).nodes) }
{
    table.switches() * (table.nodes().len() + 1) + REGISTERS
}

// The sender, and then the records of all switches.
pub fn hand_length(table: &Checked) -> usize
    ensures { result ≡ hand_length (view table.now).switches (length (view table.now).nodes) }
{
    1 + table.switches() * (table.nodes().len() + 1)
}
