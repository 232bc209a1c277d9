// The flags of the command line.
ghost use Rattle.inspect.specs.Words.{no_flags, with_word};

use console::options;

// What is printed beside the figures.
#[derive(Clone, Copy, Debug, PartialEq)]
pub struct Flags {
    // The table too.
    pub print: bool,
    // What the switches start with too.
    pub opening: bool,
}

impl options::Flags for Flags {
    ghost none = { no_flags };

    ghost with = { with_word };

    fn none() -> Flags {
        Flags {
            print: false,
            opening: false,
        }
    }

    fn with(self, word: &str) -> Option<Flags> {
        match word {
            "--print" => Some(Flags {
                print: true,
                ..self
            }),
            "--opening" => Some(Flags {
                opening: true,
                ..self
            }),
            _ => None,
        }
    }
}
