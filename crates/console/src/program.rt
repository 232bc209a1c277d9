// A program's run: what it is given, what it writes, and how it ends.
ghost use Rattle.console.specs.Runs.{unread};
ghost use Rattle.console.specs.declared.failure.Failure.TheVariants as failure;
ghost use Rattle.std.specs.Prelude.{◌≡◌, IfOk, IfErr, OnErr};
ghost use Rattle.std.specs.Process.{exit_status};
ghost use Rattle.std.specs.declared.io.Error.{Error};

use crate::failure::Failure;
use std::io::{BufReader, Read, Write};
use std::process::ExitCode;
use std::{env, fs, io};

// The words after the program's name.
pub fn arguments(rt: &HostRuntime) -> Result<Vec<String>, Failure>
    ensures { IfErr result (λ f. (e : Error) × (f ≡ failure.Arguments e)) }
{
    words(rt).map_err(Failure::Arguments)
}

fn words(rt: &HostRuntime) -> io::Result<Vec<String>> {
    Ok(env::args(rt)?.skip(1).collect(rt.alloc())?)
}

// The bytes of the file, or those of standard input.
pub fn input(rt: &HostRuntime, file: Option<String>) -> Result<Vec<u8>, Failure>
    ensures { IfErr result (λ f. (e : Error) × (f ≡ unread file e)) }
{
    match file {
        Some(name) => fs::read(rt, name.as_str()).map_err(|error| Failure::File(name, error)),
        None => standard_input(rt).map_err(Failure::Input),
    }
}

fn standard_input(rt: &HostRuntime) -> io::Result<Vec<u8>> {
    let mut bytes = Vec::new(rt.alloc());
    BufReader::new(rt.alloc(), rt.stdin())?.read_to_end(&mut bytes)?;
    Ok(bytes)
}

// Writes a whole answer at once.
pub fn answer(rt: &HostRuntime, text: &str) -> Result<(), Failure>
    ensures { IfErr result (λ f. (e : Error) × (f ≡ failure.Output e)) }
{
    rt.stdout()
        .write_all(text.as_bytes())
        .map_err(Failure::Output)
}

// A program, as its messages name it.
#[derive(Clone, Copy)]
pub struct Program {
    pub name: &'static str,
    // The words that it takes.
    pub usage: &'static str,
}

impl Program {
    // The status that a run ends with. Standard error says why one failed.
    pub fn exit_code(self, rt: &HostRuntime, outcome: Result<ExitCode, Failure>) -> ExitCode
        ensures ok { IfOk outcome (λ code. result ≡ code) }
        ensures err { OnErr outcome (exit_status result ≡ 1) }
    {
        match outcome {
            Ok(code) => code,
            Err(failure) => {
                // There is nowhere left to say that this failed.
                let _ = self.report(rt, &failure);
                ExitCode::FAILURE
            }
        }
    }

    fn report(self, rt: &HostRuntime, failure: &Failure) -> io::Result<()> {
        let Program { name, usage } = self;
        match failure {
            Failure::Misuse(misuse) => eprintln!(rt; "{name}: {misuse}\nusage: {name} {usage}"),
            _ => eprintln!(rt; "{name}: {failure}"),
        }
    }
}
