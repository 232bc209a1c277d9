// The static library of the copy check, for firmware in C. The library's call once more, since a crate is a
// library or a static library.
#![tactic(auto)]

ghost use Rattle.carriers.specs.CopyCalls.{check_answer};
ghost use Rattle.std.specs.Prelude.{◌≡◌};
ghost use Rattle.table.specs.Delivered.{packed};

// Checks a copy of either delivered kind, for so many switches and nodes: 0 where it is accepted, else the refusal.
#[unsafe(no_mangle)]
pub extern "C" fn copy_check(code: u32, n: u32, m: u32, bytes: &[u8]) -> u32
    ensures { result ≡ packed (check_answer code n m bytes.now) }
{
    carriers::firmware::copy_check(code, n, m, bytes)
}
