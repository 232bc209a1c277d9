use crate::failure::Failure;
use crate::program::{Program, answer, arguments, input};
use std::process::ExitCode;
use std::test::Fail;

const PROGRAM: Program = Program {
    name: "program",
    usage: "[FILE]",
};

// No clause says that there is memory enough, or that a file can be read.
#[test]
fn calls_succeed(rt: HostRuntime) -> Result<(), Fail> {
    let _ = arguments(&rt)?;
    let empty = String::from_str(rt.alloc(), "/dev/null")?;
    let bytes = input(&rt, Some(empty))?;
    assert!(rt; bytes.is_empty());
    answer(&rt, "")?;
    assert!(rt; PROGRAM.exit_code(&rt, Ok(ExitCode::SUCCESS)) == ExitCode::SUCCESS);
    Ok(())
}

#[test]
fn a_file_that_is_not_there(rt: HostRuntime) -> Result<(), Fail> {
    let name = String::from_str(rt.alloc(), "/no such file")?;
    let outcome = input(&rt, Some(name)).map(|_| ExitCode::SUCCESS);
    assert!(rt; matches!(outcome, Err(Failure::File(_, _))));
    assert!(rt; PROGRAM.exit_code(&rt, outcome) == ExitCode::FAILURE);
    Ok(())
}
