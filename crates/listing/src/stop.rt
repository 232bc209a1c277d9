// Why a call gives no answer.
ghost use Rattle.listing.specs.declared.stop.Stop.TheVariants.{Memory, Refused};
ghost use Rattle.std.specs.Prelude.{◌≡◌};

use crate::text::Refusal;
use std::alloc::{AllocError, AllocFailed};
use table::fault::Fault;

#[derive(Clone, Copy, Debug, PartialEq)]
pub enum Stop<R = Fault> {
    Refused(R),
    // There is no memory for the answer.
    Memory,
}

impl From<Fault> for Stop {
    ghost from_gives = { λ e r. r ≡ Refused e };

    fn from(fault: Fault) -> Stop {
        Stop::Refused(fault)
    }
}

impl From<Refusal> for Stop<Refusal> {
    ghost from_gives = { λ e r. r ≡ Refused e };

    fn from(refusal: Refusal) -> Stop<Refusal> {
        Stop::Refused(refusal)
    }
}

impl<R> From<AllocError> for Stop<R> {
    ghost from_gives = { λ _ r. r ≡ Memory };

    fn from(_error: AllocError) -> Stop<R> {
        Stop::Memory
    }
}

impl<R, T: Drop> From<AllocFailed<T>> for Stop<R> {
    ghost from_gives = { λ _ r. r ≡ Memory };

    fn from(_refused: AllocFailed<T>) -> Stop<R> {
        Stop::Memory
    }
}
