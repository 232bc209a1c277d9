// The call for firmware in C.
ghost use Rattle.std.specs.Prelude.{◌≡◌};
ghost use Rattle.carriers.specs.CopyCalls.{check_answer};
ghost use Rattle.table.specs.Delivered.{packed};

use crate::copy::check;
use table::firmware::answered;

// Checks a copy of either delivered kind, for so many switches and nodes: 0 where it is accepted, else the refusal.
#[unsafe(no_mangle)]
pub extern "C" fn copy_check(code: u32, n: u32, m: u32, bytes: &[u8]) -> u32
    ensures { result ≡ packed (check_answer code n m bytes.now) }
{
    answered(check(code, n, m, bytes))
}
