// The words of the command line: a program's flags, and at most one file.
ghost use Rattle.console.specs.Words.{taken, parsed, nothing_asked, misuse_text};
ghost use Rattle.std.specs.Prelude.{ℕ, ◌≡◌, List, Option, Some};

use std::fmt;

// The flags of a program.
pub trait Flags: Copy {
    ghost none: { Self };

    ghost with: { Self → List ℕ → Option Self };

    // No flag is set.
    fn none() -> Self
        ensures { result ≡ none };

    // These flags and the one that the word names, if it names one.
    fn with(self, word: &str) -> Option<Self>
        ensures { result ≡ with self word.now };
}

// What a program is asked to do.
#[derive(Drop)]
pub struct Options<F> {
    pub flags: F,
    // The file to read; where there is none the input comes on standard input.
    pub file: Option<String>,
}

// A word that the command line cannot have there.
#[derive(Debug, Drop)]
pub enum Misuse {
    // It begins with `-` and is no flag of the program.
    UnknownOption(String),
    SecondFile(String),
}

impl fmt::Display for Misuse {
    ghost output = { λ misuse. Some (misuse_text misuse) };

    fn fmt<W: fmt::Write>(&self, f: &mut fmt::Formatter<W>) -> fmt::Result {
        match self {
            Misuse::UnknownOption(word) => write!(f, "unknown option {word}"),
            Misuse::SecondFile(word) => write!(f, "a second file {word}"),
        }
    }
}

impl<F: Flags> Options<F> {
    // The options with one word more.
    pub fn with(self, word: String) -> Result<Options<F>, Misuse>
        ensures { result ≡ taken F.with self word }
    {
        let Options { flags, file } = self;
        if let Some(flags) = flags.with(word.as_str()) {
            return Ok(Options { flags, file });
        }
        if word.as_str().starts_with('-') {
            return Err(Misuse::UnknownOption(word));
        }
        match file {
            None => Ok(Options {
                flags,
                file: Some(word),
            }),
            Some(_) => Err(Misuse::SecondFile(word)),
        }
    }

    // The options that the words ask for.
    pub fn parse(words: Vec<String>) -> Result<Options<F>, Misuse>
        ensures { result ≡ parsed F.with (nothing_asked F.none) words.items }
    {
        let mut options = Options {
            flags: F::none(),
            file: None,
        };
        for word in words {
            options = options.with(word)?;
        }
        Ok(options)
    }
}
