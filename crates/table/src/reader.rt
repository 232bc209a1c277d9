// Reads fields of 4 bytes, high byte first, one after another.
ghost use Rattle.std.specs.Prelude.{◌≡◌, ◌≤◌, length};
ghost use Rattle.table.specs.declared.fault.Reason.{Reason};

use crate::fault::Reason;

// Why a reader refuses a field.
pub trait Refusals {
    ghost short: { Self → Reason };

    ghost wrong: { Self → Reason };

    // It is missing.
    fn short(&self) -> Reason
        ensures { result ≡ short self.now };

    // It has a value that may not stand there.
    fn wrong(&self) -> Reason
        ensures { result ≡ wrong self.now };
}

// One reason for both.
impl Refusals for Reason {
    ghost short = { λ reason. reason };

    ghost wrong = { λ reason. reason };

    fn short(&self) -> Reason {
        *self
    }

    fn wrong(&self) -> Reason {
        *self
    }
}

// The handed bytes with the offset of the next field.
#[derive(Drop)]
pub struct Reader<'a, R = Reason> {
    bytes: &'a [u8],
    at: usize,
    refusals: R,
    ghost inside: { at ≤ length bytes.now },
}

mod fields;

pub(crate) use fields::word;
