// Runs a rehearsal file and prints its listing.
#![tactic(auto)]

mod flags;

ghost use Rattle.console.specs.declared.failure.Failure.TheVariants as failure;
ghost use Rattle.listing.specs.Outputs.{printed};
ghost use Rattle.std.specs.Prelude.{◌≡◌, IfOk, IfErr, if◌then◌else◌, string_bytes};
ghost use Rattle.std.specs.Process.{exit_status};

use console::failure::Failure;
use console::options::Options;
use console::program::{Program, answer, arguments, input};
use flags::Flags;
use listing::output::render;
use listing::stop::Stop;
use listing::text;
use std::alloc::Global;
use std::process::ExitCode;

const REHEARSE: Program = Program {
    name: "rehearse",
    usage: "[--knows] [FILE]",
};

// What is printed of an input, and the status that says whether it is accepted. Only want of memory stops this.
fn printed(heap: Global, bytes: &[u8], knows: bool) -> Result<(String, ExitCode), Failure>
    ensures text { IfOk result (λ p. string_bytes p.0 ≡ (printed bytes.now knows).text) }
    ensures status { IfOk result (λ p. exit_status p.1 ≡ (if (printed bytes.now knows).accepted then 0 else 1)) }
    ensures stops { IfErr result (λ f. f ≡ failure.Memory) }
{
    match render(heap, bytes, knows) {
        Ok(text) => Ok((text, ExitCode::SUCCESS)),
        Err(Stop::Refused(refusal)) => Ok((text::refused(heap, refusal)?, ExitCode::FAILURE)),
        Err(Stop::Memory) => Err(Failure::Memory),
    }
}

fn run(rt: &HostRuntime) -> Result<ExitCode, Failure> {
    let Options { flags, file } = Options::<Flags>::parse(arguments(rt)?)?;
    let bytes = input(rt, file)?;
    let (text, code) = printed(rt.alloc(), &bytes, flags.knows)?;
    answer(rt, text.as_str())?;
    Ok(code)
}

fn main(rt: HostRuntime) -> ExitCode {
    REHEARSE.exit_code(&rt, run(&rt))
}
