//! `kmin`: minimal configuration files.
#![tactic(auto)]

mod files;
mod line_files;
mod standard_error;

use files::{SystemFiles, new_seed};
use kc_value::{FromRead, ToWrite};
use kmin_cli::{ParsedWords, command_first, read_words};
use kmin_disk::SystemDisk;
use kmin_options::{Question, Task, Verb};
use kmin_run::Program;
use line_files::SystemLines;
use standard_error::StandardError;
use std::alloc::Global;
use std::io::IsTerminal;
use std::process::ExitCode;
use std::{env, io};

fn main(rt: HostRuntime) -> ExitCode {
    match run_words(&rt) {
        Ok(status) => ExitCode::from(status),
        Err(error) => refuse_words(&rt, &error),
    }
}

/// Runs the program on the words after its name and the standard streams.
fn run_words(rt: &HostRuntime) -> io::Result<u8> {
    let words: Vec<String> = env::args(rt)?.skip(1).collect(rt.alloc())?;
    let words: Vec<&str> = words.iter().map(|word| word.as_str()).collect(rt.alloc())?;
    write_waiting(rt, &words);
    write_without_files(rt, &words);
    let mut program = Program {
        files: SystemFiles::new(rt),
        disk: SystemDisk::new(rt, new_seed(rt)),
        input: FromRead::new(rt.stdin()),
        out: ToWrite::new(rt.stdout()),
        err: StandardError::new(rt.alloc(), rt.stderr(), SystemLines::new(rt)),
    };
    let status = program.run(rt.alloc(), &words);
    let is_closed = program.out.is_closed();
    program.err.end(is_closed);
    Ok(status)
}

/// Writes that the program waits for a bundle, if there are no words and standard input is a terminal.
fn write_waiting(rt: &HostRuntime, words: &[&str]) {
    if words.is_empty() && rt.stdin().is_terminal() {
        let _ = eprintln!(rt;
            "kmin: waits for a bundle at the terminal; `kmin --help` has the commands"
        );
    }
}

/// Writes that `missed` or `check` is run over no FILE, if standard error is a terminal.
fn write_without_files(rt: &HostRuntime, words: &[&str]) {
    if rt.stderr().is_terminal() && list_without_files(rt.alloc(), words) {
        let _ = eprintln!(rt; "kmin: no FILE is named, so nothing is assigned");
    }
}

/// Whether these words are the command `missed` or `check`, in any form, without a FILE.
fn list_without_files(alloc: Global, words: &[&str]) -> bool {
    let Ok(ordered) = command_first(alloc, words) else {
        return false;
    };
    match read_words(alloc, &ordered) {
        Ok(ParsedWords::Job(job)) => match &job.task {
            Task::Over {
                verb: Verb::Missed { .. } | Verb::Check { .. },
                files,
            } => files.is_empty(),
            _ => false,
        },
        Ok(ParsedWords::Explain(explain_job)) => match explain_job.question {
            Question::Explain { .. } => false,
            _ => explain_job.files.is_empty(),
        },
        _ => false,
    }
}

/// Reports words that can't be read, and returns the status: 6 if memory ran out, and else 2, since a word isn't UTF-8.
fn refuse_words(rt: &HostRuntime, error: &io::Error) -> ExitCode {
    if error.kind() == io::ErrorKind::OutOfMemory {
        let _ = eprintln!(rt; "out of memory");
        return ExitCode::from(6);
    }
    let _ = eprintln!(rt; "kmin: a word isn't UTF-8");
    ExitCode::from(2)
}
