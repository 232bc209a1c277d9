// Whether a call is admitted, as far as table, memory and the carrier's figures say.
ghost use Rattle.std.specs.Prelude.{◌≡◌, OnOk};
ghost use Rattle.fleet.specs.Blocks.{Able};
ghost use Rattle.fleet.specs.FleetCalls.{Admits, call_of, early, full_by};
ghost use Rattle.history.specs.Calls.{send_call, set_call};
ghost use Rattle.step.specs.Refusing.{refused_by};
ghost use Rattle.step.specs.Steps.{set_register};
ghost use Rattle.table.specs.Views.{view};

use crate::blocks::Blocks;
use crate::call::Call;
use carriers::carrier::Figures;
use table::fault::Reason;
use table::limits::REGISTERS;

// There is no space for another copy, or no number.
fn is_full(figures: Figures) -> bool
    ensures { result ≡ full_by figures }
{
    figures.held == figures.capacity || figures.next == u32::MAX
}

impl<'a, 'b> Blocks<'a, 'b> {
    fn admit_set(
        &self,
        figures: Figures,
        switch: u32,
        register: u32,
        word: u32,
    ) -> Result<(), Reason>
        ensures value { result ≡ refused_by (early (view self.now.table.now) self.now.memory.now figures (set_call switch register word)) }
        ensures able { OnOk result (Able (view self.now.table.now) switch (set_register register word) self.now.memory.now) }
    {
        if (switch as usize) < self.table.switches() && register as usize >= REGISTERS {
            return Err(Reason::Operand);
        }
        self.can_act(switch as usize)
    }

    fn admit_send(&self, figures: Figures, switch: u32) -> Result<(), Reason>
        ensures value { result ≡ refused_by (early (view self.now.table.now) self.now.memory.now figures (send_call switch)) }
        ensures able { OnOk result (Admits (view self.now.table.now) self.now.memory.now (send_call switch)) }
    {
        self.can_act(switch as usize)?;
        if is_full(figures) {
            return Err(Reason::Full);
        }
        Ok(())
    }

    // Every test but whether a copy is held.
    pub(crate) fn admit(&self, figures: Figures, call: Call) -> Result<(), Reason>
        ensures value { result ≡ refused_by (early (view self.now.table.now) self.now.memory.now figures (call_of call)) }
        ensures able { OnOk result (Admits (view self.now.table.now) self.now.memory.now (call_of call)) }
    {
        match call {
            Call::Set {
                switch,
                register,
                word,
            } => self.admit_set(figures, switch, register, word),
            Call::Send { switch } => self.admit_send(figures, switch),
            Call::Receive { switch, .. } => self.can_act(switch as usize),
            Call::Retire { .. } => Ok(()),
        }
    }
}
