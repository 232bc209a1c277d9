// Whether a fleet can be opened.
ghost use Rattle.fleet.specs.Shapes.{Sized, answer_number, fit_answer, state};
ghost use Rattle.table.specs.Views.{view};
ghost use Rattle.std.specs.Prelude.{◌≡◌, OnOk};

use crate::shape::{shaped, unused};
use carriers::carrier::Carrier;
use readings::reading::Reading;
use table::fault::Reason;
use table::table::Checked;

// Admits a fleet of this kind on these: they have the table's shape, and the carrier is new.
pub(crate) fn admit<K: Reading, C: Carrier>(
    table: &Checked,
    memory: &[u32],
    hand: &[u32],
    carrier: &C,
) -> Result<(), Reason>
    ensures number { C.sound carrier.now → answer_number result ≡ fit_answer K.CODE (view table.now) (state memory.now hand.now (C.meaning carrier.now)) }
    ensures lengths { OnOk result (Sized (view table.now) memory.now hand.now) }
{
    let figures = carrier.figures();
    if shaped::<K>(table, memory, hand, figures) && unused(figures) {
        Ok(())
    } else {
        Err(Reason::Shape)
    }
}

// 0 where a fleet of this kind can be opened on these, and else the number of the refusal.
pub fn fit<K: Reading, C: Carrier>(
    table: &Checked,
    memory: &[u32],
    hand: &[u32],
    carrier: &C,
) -> u32
    ensures number { C.sound carrier.now → result ≡ fit_answer K.CODE (view table.now) (state memory.now hand.now (C.meaning carrier.now)) }
    ensures lengths { result ≡ 0 → Sized (view table.now) memory.now hand.now }
{
    match admit::<K, C>(table, memory, hand, carrier) {
        Ok(()) => 0,
        Err(reason) => reason.number(),
    }
}
