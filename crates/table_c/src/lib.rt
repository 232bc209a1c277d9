// The static library of the table check, for firmware in C. The library's call once more, since a crate is a
// library or a static library.
#![tactic(auto)]

ghost use Rattle.std.specs.Prelude.{◌≡◌};
ghost use Rattle.table.specs.Delivered.{delivered, packed};

// Checks a rule table of either delivered kind: 0 where it is accepted, else the refusal.
#[unsafe(no_mangle)]
pub extern "C" fn table_check(bytes: &[u8]) -> u32
    ensures { result ≡ packed (delivered bytes.now) }
{
    table::firmware::table_check(bytes)
}
