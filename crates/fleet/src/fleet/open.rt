// Opening and closing a fleet.
ghost use Rattle.fleet.specs.Shapes.{Opened, state};
ghost use Rattle.step.specs.Nodes.{on_words};
ghost use Rattle.table.specs.Views.{view};
ghost use Rattle.std.specs.Prelude.{◌≡◌};

use crate::blocks::open_blocks;
use crate::fit;
use crate::fleet::Fleet;
use carriers::carrier::Carrier;
use readings::reading::Reading;
use std::marker::PhantomData;
use table::table::Checked;

impl<'a, K: Reading, C: Carrier> Fleet<'a, K, C> {
    // A live fleet with every block as its switch starts, exactly where everything fits; else a shut one, and nothing
    // is written.
    pub fn open(
        table: &Checked<'a>,
        memory: &mut [u32],
        hand: &[u32],
        carrier: C,
    ) -> Fleet<'a, K, C>
        ensures carrier { result.carrier ≡ carrier }
        ensures fleet { C.sound carrier → Opened K.CODE (on_words K.kind) (view table.now) (state memory.old hand.now (C.meaning carrier)) memory.new result.live }
    {
        let live = fit::admit::<K, C>(table, memory, hand, &carrier).is_ok();
        if live {
            open_blocks::<K>(table, memory);
        }
        Fleet {
            carrier,
            live,
            table: PhantomData,
        }
    }

    // The carrier, of a shut fleet too.
    pub fn close(self) -> C
        ensures { result ≡ self.entry.carrier }
    {
        let Fleet {
            carrier,
            live: _,
            table: _,
        } = self;
        carrier
    }
}
