// Looking at what a switch knows.
ghost use Rattle.fleet.specs.FleetCalls.{look_answer, look_refusal};
ghost use Rattle.fleet.specs.Shapes.{state};
ghost use Rattle.step.specs.Refusing.{refused_by};
ghost use Rattle.table.specs.Views.{view};
ghost use Rattle.std.specs.Prelude.{◌≡◌};

use crate::blocks::Blocks;
use crate::call::Known;
use crate::fleet::Fleet;
use carriers::carrier::Carrier;
use readings::reading::Reading;
use table::fault::{Fault, Reason};
use table::table::Checked;

// Whether there is something to look at.
fn can_look(table: &Checked, switch: u32, of: u32, node: u32) -> Result<(), Reason>
    ensures { result ≡ refused_by (look_refusal (view table.now) switch of node) }
{
    let switches = table.switches();
    if switch as usize >= switches || of as usize >= switches {
        return Err(Reason::Switch);
    }
    if node as usize >= table.nodes().len() {
        return Err(Reason::Operand);
    }
    Ok(())
}

impl<'a, K: Reading, C: Carrier> Fleet<'a, K, C> {
    // What `switch` knows of a node of the switch `of`: the count of that record, and the node's word in it.
    pub fn look(
        &self,
        table: &Checked,
        memory: &[u32],
        hand: &[u32],
        switch: u32,
        of: u32,
        node: u32,
    ) -> Result<Known, Fault>
        ensures { C.sound self.now.carrier → result ≡ look_answer self.now.live K.CODE (view table.now) (state memory.now hand.now (C.meaning self.now.carrier)) switch of node }
    {
        self.ready(table, memory, hand)?;
        can_look(table, switch, of, node)?;
        let (switch, of, node) = (switch as usize, of as usize, node as usize);
        let blocks = Blocks { table, memory };
        Ok(Known {
            count: blocks.word(switch, of, 0),
            word: blocks.word(switch, of, node + 1),
        })
    }
}
