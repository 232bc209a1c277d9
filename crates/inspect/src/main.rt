// Checks a rule table and prints what it says.
#![tactic(auto)]

mod flags;
mod formula;
mod opening;
mod report;
mod value;

use console::failure::Failure;
use console::options::Options;
use console::program::{Program, answer, arguments, input};
use flags::Flags;
use report::{Accepted, refused};
use std::process::ExitCode;
use table::kind::check_delivered;
use table::table::{Checked, Draft};

const INSPECT: Program = Program {
    name: "inspect",
    usage: "[--print] [--opening] [FILE]",
};

fn run(rt: &HostRuntime) -> Result<ExitCode, Failure> {
    let heap = rt.alloc();
    let Options { flags, file } = Options::<Flags>::parse(arguments(rt)?)?;
    let bytes = input(rt, file)?;
    let mut table = Checked::worked();
    let (text, code) = match check_delivered(Draft::new(&bytes), &mut table) {
        Ok(kind) => {
            let accepted = Accepted {
                kind,
                table: &table,
            };
            let mut text = accepted.text(heap, flags.print)?;
            if flags.opening {
                text.push_str(accepted.opening_text(heap)?.as_str())?;
            }
            (text, ExitCode::SUCCESS)
        }
        Err(fault) => (refused(heap, fault)?, ExitCode::FAILURE),
    };
    answer(rt, text.as_str())?;
    Ok(code)
}

fn main(rt: HostRuntime) -> ExitCode {
    INSPECT.exit_code(&rt, run(&rt))
}
