//! Runs cases as text: each word of the call names a file of cases, and a transcript of them is printed. docs/CASES.md has
//! the statements.
#![tactic(auto)]

mod bytes;
mod calls;
mod folder;
mod images;
mod leaves;
mod lines;
mod plans;
mod rows;
mod runner;
mod show;
mod state;
mod stop;
mod texts;
mod values;
mod words;

use lines::source_lines;
use runner::Runner;
use std::io::Write;
use std::process::ExitCode;
use std::{env, fs};
use stop::Stop;

/// The most bytes of a case file.
const MOST_BYTES: usize = 4_194_304;

/// How the run of a file ends.
enum Ended {
    /// All of it was run.
    Whole,
    /// There is no such file, it isn't text, or it is too long.
    NoFile,
    /// It was run up to here.
    Stopped(Stop),
}

/// The text of a case file.
fn text_of(rt: &HostRuntime, name: &str) -> Option<String> {
    match fs::read_to_string(rt, name) {
        Ok(text) if text.len() <= MOST_BYTES => Some(text),
        _ => None,
    }
}

/// Runs the cases of a text.
fn run_text(runner: &mut Runner, rt: &HostRuntime, text: &str) -> Result<(), Stop> {
    let lines = source_lines(rt.alloc(), text)?;
    runner.run_block(lines.as_slice())
}

/// Runs the cases of a file, and prints their transcript.
fn run_file(rt: &HostRuntime, name: &str) -> Ended {
    let Some(text) = text_of(rt, name) else {
        return Ended::NoFile;
    };
    let mut runner = match Runner::new(rt.alloc()) {
        Ok(runner) => runner,
        Err(stop) => return Ended::Stopped(stop),
    };
    let done = run_text(&mut runner, rt, text.as_str());
    let printed = rt.stdout().write_all(runner.transcript());
    match (done, printed) {
        (Err(stop), _) => Ended::Stopped(stop),
        (Ok(()), Ok(())) => Ended::Whole,
        (Ok(()), Err(_)) => Ended::NoFile,
    }
}

/// Prints why a file wasn't run to its end.
fn report(rt: &HostRuntime, name: &str, ended: Ended) -> std::io::Result<()> {
    match ended {
        Ended::Whole => Ok(()),
        Ended::NoFile => println!(rt; "no case file {name}"),
        Ended::Stopped(Stop::BadCase { line, column }) => {
            println!(rt; "bad case {name} {line} {column}")
        }
        Ended::Stopped(Stop::Unexpected) => println!(rt; "unexpected in {name}"),
        Ended::Stopped(Stop::OutOfMemory) => println!(rt; "out of memory in {name}"),
    }
}

fn main(rt: HostRuntime) -> ExitCode {
    let Ok(args) = env::args(&rt) else {
        return ExitCode::from(1);
    };
    for name in args.skip(1) {
        let ended = run_file(&rt, name.as_str());
        if let Ended::Whole = ended {
            continue;
        }
        let _ = report(&rt, name.as_str(), ended);
        return ExitCode::from(1);
    }
    ExitCode::from(0)
}
