//! The program `aria`: its words, the current folder and standard input, given to `aria_tools::aria`.
#![tactic(auto)]

use aria_host::{DirHost, StdSource};
use aria_tools::{Status, WordList, aria};
use std::fs::File;
use std::io::ErrorKind;
use std::process::ExitCode;
use std::{env, io};

// A folder that can be opened. Reading it or writing to it as a file fails.
const ROOT: &str = "/";

// Takes the places of the standard streams that are closed. Else the files of the folder would come to stand there, and
// what is told would be written into the log.
fn take_places(rt: &HostRuntime) -> io::Result<[File; 3]> {
    Ok([
        File::open(rt, ROOT)?,
        File::open(rt, ROOT)?,
        File::open(rt, ROOT)?,
    ])
}

// The words of the command line, without the program's name.
fn read_words(rt: &HostRuntime) -> io::Result<WordList> {
    let mut words = WordList::new(rt.alloc());
    for word in env::args(rt)?.skip(1) {
        words.push(word)?;
    }
    Ok(words)
}

// Ends with this status, or with want of memory where that is the error.
fn report(rt: &HostRuntime, error: io::Error, status: Status) -> u8 {
    let status = if error.kind() == ErrorKind::OutOfMemory {
        Status::Memory
    } else {
        status
    };
    let _ = eprint!(rt; "{}", status.line());
    status.code()
}

fn run(rt: &HostRuntime) -> u8 {
    match read_words(rt) {
        Ok(words) => {
            let mut host = DirHost::new(rt);
            let mut input = StdSource::new(rt);
            aria(rt.alloc(), &words, &mut host, &mut input).status
        }
        // Words that are no text are bad words.
        Err(error) => report(rt, error, Status::BadWords),
    }
}

fn main(rt: HostRuntime) -> ExitCode {
    let status = match take_places(&rt) {
        Ok(_places) => run(&rt),
        Err(error) => report(&rt, error, Status::Disk),
    };
    ExitCode::from(status)
}
