// The copy codec for programs in C that test or measure it beside another; no part of what firmware links.
#![tactic(auto)]

ghost use Rattle.carriers.specs.Copies.{copy_bytes, hand_in};
ghost use Rattle.carriers.specs.CopyCalls.{after, read_answer, write_answer};
ghost use Rattle.copy_probe.specs.Outcome.{reason_number};
ghost use Rattle.std.specs.Prelude.{◌≡◌};

use carriers::copy::{read, write};
use table::fault::Fault;

// Whether the codec went well, 0, or the number of the refusal. Not the table's `answered`: its callers get the number alone.
fn outcome(r: Result<(), Fault>) -> u32
    ensures { result ≡ reason_number r }
{
    match r {
        Ok(_) => 0,
        Err(fault) => fault.reason.number(),
    }
}

#[unsafe(no_mangle)]
pub extern "C" fn copy_probe_write(code: u32, n: u32, m: u32, hand: &[u32], bytes: &mut [u8]) -> u32
    ensures answer { result ≡ reason_number (write_answer code n m hand.now bytes.old) }
    ensures bytes { bytes.new ≡ after (write_answer code n m hand.now bytes.old) (copy_bytes code n m hand.now) bytes.old }
{
    outcome(write(code, n, m, hand, bytes))
}

#[unsafe(no_mangle)]
pub extern "C" fn copy_probe_read(code: u32, n: u32, m: u32, bytes: &[u8], hand: &mut [u32]) -> u32
    ensures answer { result ≡ reason_number (read_answer code n m bytes.now hand.old) }
    ensures hand { hand.new ≡ after (read_answer code n m bytes.now hand.old) (hand_in n m bytes.now) hand.old }
{
    outcome(read(code, n, m, bytes, hand))
}
