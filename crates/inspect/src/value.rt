// A reading as a person reads it: a number in decimal, or a set of ports as `{0, 3, 7}`.
ghost use Rattle.inspect.specs.Values.{ports_text, value_text};
ghost use Rattle.readings.specs.Ports.{has, port_count};
ghost use Rattle.std.specs.Prelude.{◌≡◌, ◌<◌, Some};

use readings::number::Number;
use readings::reading::Reading;
use std::fmt;
use table::kind::Kind;

// The reading of a word.
#[derive(Clone, Copy)]
pub struct Value {
    pub kind: Kind,
    pub word: u32,
}

// The ports whose bit is 1.
#[derive(Clone, Copy)]
pub struct PortList {
    pub bits: u32,
}

impl PortList {
    #[tactic(auto, using(crate::proofs::PortSteps::has_shifted))]
    fn has(self, port: u32) -> bool
        requires { port < port_count }
        ensures { result ≡ has self.bits port }
    {
        self.bits >> port & 1 == 1
    }
}

impl fmt::Display for PortList {
    ghost output = { λ p. Some (ports_text p.bits) };

    fn fmt<W: fmt::Write>(&self, f: &mut fmt::Formatter<W>) -> fmt::Result {
        f.write_str("{")?;
        let mut between = "";
        for port in 0..u32::BITS {
            if self.has(port) {
                write!(f, "{between}{port}")?;
                between = ", ";
            }
        }
        f.write_str("}")
    }
}

impl fmt::Display for Value {
    ghost output = { λ v. Some (value_text v.kind v.word) };

    fn fmt<W: fmt::Write>(&self, f: &mut fmt::Formatter<W>) -> fmt::Result {
        let word = self.word;
        match self.kind {
            Kind::Numbers => {
                let number = Number::from_word(word).value;
                write!(f, "{number}")
            }
            Kind::Ports => {
                let ports = PortList { bits: word };
                write!(f, "{ports}")
            }
        }
    }
}
