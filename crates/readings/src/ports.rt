// Port sets: bit p of the word is port p.
ghost use Rattle.readings.specs.Ports.{port_code, held_ports, has, port_count, port_sets};
ghost use Rattle.std.specs.Prelude.{not, ◌&&◌, ◌||◌};
ghost use Rattle.readings.specs.PortSets.{collect_lt};
ghost use Rattle.std.proofs.Common.{rules};

use crate::reading::Reading;

#[derive(Clone, Copy, Debug, PartialEq)]
pub struct Ports {
    pub bits: u32,
}

impl Reading for Ports {
    const CODE: u32 = 2;

    ghost CODE = { port_code };

    ghost held = { held_ports };

    ghost kind = { port_sets };

    ghost back = { Prim.search rules };

    ghost fits = { Prim.search rules };

    ghost reads = { Prim.search rules };

    ghost joins = { λ a b ha hb. collect_lt port_count (λ p. has a.bits p || has b.bits p) };

    ghost cuts = { λ a b ha hb. collect_lt port_count (λ p. has a.bits p && not (has b.bits p)) };

    fn from_word(w: u32) -> Ports {
        Ports { bits: w }
    }

    fn to_word(self) -> u32 {
        self.bits
    }

    fn join(self, other: Ports) -> Ports {
        Ports {
            bits: self.bits | other.bits,
        }
    }

    // The ports of `self` that are not in `other`.
    fn cut(self, other: Ports) -> Ports {
        Ports {
            bits: self.bits & !other.bits,
        }
    }

    fn within(self, other: Ports) -> bool {
        self.bits & other.bits == self.bits
    }

    fn same(self, other: Ports) -> bool {
        self.bits == other.bits
    }
}
