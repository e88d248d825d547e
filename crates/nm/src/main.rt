//! `nm`, the store of power network models: real streams, and the forms of the command line over
//! them.
#![tactic(auto)]

use nm_base::{ReadSource, Status, WriteSink};
use nm_cli::run;
use std::env::Env;
use std::process::ExitCode;
use std::{env, io};

fn main(rt: HostRuntime) -> ExitCode {
    let status = match words(&rt) {
        Ok(words) => {
            let mut input = ReadSource::new(rt.stdin());
            let mut output = WriteSink::new(rt.stdout());
            run(rt.alloc(), &words, &mut input, &mut output)
        }
        Err(error) => status_of(error),
    };
    if status == Status::Usage {
        // The status tells it too, so that a standard error that takes nothing changes no more.
        let _ = eprintln!(rt; "usage: nm session | canon | check | gen N SEED");
    }
    ExitCode::from(status.code())
}

/// The words after the program's name.
fn words<R: Env + Alloc>(rt: &R) -> io::Result<Vec<String<R::A>, R::A>> {
    let mut words = Vec::new(rt.alloc());
    for word in env::args(rt)?.skip(1) {
        words.push(word)?;
    }
    Ok(words)
}

/// The status where the words could not be had: one that is not UTF-8 is no form's.
fn status_of(error: io::Error) -> Status {
    match error.kind() {
        io::ErrorKind::InvalidData => Status::Usage,
        _ => Status::NoMemory,
    }
}
