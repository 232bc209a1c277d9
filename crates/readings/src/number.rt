// Numbers: a word in two's complement.
ghost use Rattle.readings.specs.Numbers.{number_code, held_number, numbers};
ghost use Rattle.std.proofs.Common.{rules};

use crate::reading::Reading;

#[derive(Clone, Copy, Debug, PartialEq)]
pub struct Number {
    pub value: i32,
}

impl Reading for Number {
    const CODE: u32 = 1;

    ghost CODE = { number_code };

    ghost held = { held_number };

    ghost kind = { numbers };

    ghost back = { Prim.search rules };

    ghost fits = { Prim.search rules };

    ghost reads = { Prim.search rules };

    ghost joins = { Prim.search rules };

    ghost cuts = { Prim.search rules };

    fn from_word(w: u32) -> Number {
        Number {
            value: w.cast_signed(),
        }
    }

    fn to_word(self) -> u32 {
        self.value.cast_unsigned()
    }

    // The sum, held at the ends of the range.
    fn join(self, other: Number) -> Number {
        Number {
            value: self.value.saturating_add(other.value),
        }
    }

    // The difference, held at the ends of the range.
    fn cut(self, other: Number) -> Number {
        Number {
            value: self.value.saturating_sub(other.value),
        }
    }

    fn within(self, other: Number) -> bool {
        self.value <= other.value
    }

    fn same(self, other: Number) -> bool {
        self.value == other.value
    }
}
