// The call for firmware in C, and what its answer is made of.
ghost use Rattle.table.specs.Delivered.{delivered, packed};
ghost use Rattle.table.specs.Refusals.{most_word};
ghost use Rattle.std.specs.Prelude.{◌≡◌, min};

use crate::fault::Fault;
use crate::kind::check_delivered;
use crate::table::{Checked, Draft};

// The answer of a call for C: 0, or the refusal as one number.
pub fn answered<T: Drop>(answer: Result<T, Fault>) -> u32
    ensures { result ≡ min (packed answer) most_word }
{
    match answer {
        Ok(_) => 0,
        Err(fault) => fault.packed(),
    }
}

// Checks a rule table of either delivered kind: 0 where it is accepted, else the refusal.
#[unsafe(no_mangle)]
pub extern "C" fn table_check(bytes: &[u8]) -> u32
    ensures { result ≡ packed (delivered bytes.now) }
{
    let mut place = Checked::worked();
    answered(check_delivered(Draft::new(bytes), &mut place))
}
