// Whether memory, hand and carrier are for a table.
ghost use Rattle.fleet.specs.Shapes.{Sized, carries, shaped_by, sized, unused};
ghost use Rattle.table.specs.Views.{view};
ghost use Rattle.std.specs.Prelude.{◌≡◌, true, length};

use carriers::carrier::Figures;
use readings::reading::Reading;
use step::lengths::{block_length, hand_length};
use table::table::Checked;

// A carrier with these figures is for the table.
fn carries(table: &Checked, figures: Figures) -> bool
    ensures { result ≡ carries (view table.now) figures }
{
    figures.code == table.code()
        && figures.switches == table.switches()
        && figures.nodes == table.nodes().len()
}

// Memory and hand have the table's lengths.
fn sized(table: &Checked, memory: &[u32], hand: &[u32]) -> bool
    ensures value { result ≡ sized (view table.now) (length memory.now) (length hand.now) }
    ensures lengths { result ≡ true → Sized (view table.now) memory.now hand.now }
{
    memory.len() == table.switches() * block_length(table) && hand.len() == hand_length(table)
}

// Table, memory, hand and carrier have the shape that the kind and the table ask for.
pub(crate) fn shaped<K: Reading>(
    table: &Checked,
    memory: &[u32],
    hand: &[u32],
    figures: Figures,
) -> bool
    ensures value { result ≡ shaped_by K.CODE (view table.now) (length memory.now) (length hand.now) figures }
    ensures lengths { result ≡ true → Sized (view table.now) memory.now hand.now }
{
    table.code() == K::CODE && sized(table, memory, hand) && carries(table, figures)
}

// A carrier with these figures is new, and has space.
pub(crate) fn unused(figures: Figures) -> bool
    ensures { result ≡ unused figures }
{
    figures.next == 0 && figures.held == 0 && figures.capacity >= 1
}
