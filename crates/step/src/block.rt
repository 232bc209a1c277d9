// One switch's block of a table.
ghost use Rattle.step.specs.Steps.{Fitting};
ghost use Rattle.table.specs.Views.{view};

use table::table::Checked;

// The records of all switches, and then the own registers.
#[derive(Drop)]
pub(crate) struct Block<'a, 'b> {
    pub(crate) table: &'a Checked<'a>,
    pub(crate) switch: usize,
    pub(crate) words: &'b mut [u32],
    ghost fitting: { Fitting (view table.now) switch words.now },
}

mod writes;
