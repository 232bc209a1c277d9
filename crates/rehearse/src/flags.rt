// The flags of the command line.
ghost use Rattle.rehearse.specs.Words.{no_flags, with_word};

use console::options;

// What is printed beside the listing.
#[derive(Clone, Copy, Debug, PartialEq)]
pub struct Flags {
    // What the switches know at the end too.
    pub knows: bool,
}

impl options::Flags for Flags {
    ghost none = { no_flags };

    ghost with = { with_word };

    fn none() -> Flags {
        Flags { knows: false }
    }

    fn with(self, word: &str) -> Option<Flags> {
        match word {
            "--knows" => Some(Flags { knows: true }),
            _ => None,
        }
    }
}
