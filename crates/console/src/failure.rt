// Why a program fails.
ghost use Rattle.console.specs.declared.failure.Failure.TheVariants as failure;
ghost use Rattle.std.specs.Prelude.{◌≡◌};

use crate::options::Misuse;
use std::alloc::AllocError;
use std::{fmt, io};

#[derive(Debug, Drop)]
pub enum Failure {
    // The words of the command line cannot be read.
    Arguments(io::Error),
    Misuse(Misuse),
    // The named file cannot be read.
    File(String, io::Error),
    // Standard input cannot be read.
    Input(io::Error),
    Memory,
    // Standard output cannot be written.
    Output(io::Error),
}

impl fmt::Display for Failure {
    fn fmt<W: fmt::Write>(&self, f: &mut fmt::Formatter<W>) -> fmt::Result {
        match self {
            Failure::Arguments(error) => write!(f, "cannot read the arguments: {error}"),
            Failure::Misuse(misuse) => write!(f, "{misuse}"),
            Failure::File(name, error) => write!(f, "cannot read {name}: {error}"),
            Failure::Input(error) => write!(f, "cannot read standard input: {error}"),
            Failure::Memory => write!(f, "out of memory"),
            Failure::Output(error) => write!(f, "cannot write: {error}"),
        }
    }
}

impl From<Misuse> for Failure {
    ghost from_gives = { λ misuse it. it ≡ failure.Misuse misuse };

    fn from(misuse: Misuse) -> Failure {
        Failure::Misuse(misuse)
    }
}

impl From<AllocError> for Failure {
    ghost from_gives = { λ _ it. it ≡ failure.Memory };

    fn from(_error: AllocError) -> Failure {
        Failure::Memory
    }
}
