//! The program: it makes the devices, runs the command that its arguments spell, and ends with the command's status.
//! What it writes on standard error is one line, where the command didn't end well.
#![tactic(auto)]

mod devices;
mod running;

use crate::running::run;
use arrayvec::ArrayVec;
use exa_top::{STATUS_ROOM, Status};
use std::io::{ErrorKind, Write};
use std::process::ExitCode;
use std::{env, io};

fn main(rt: HostRuntime) -> ExitCode {
    let status = match words_of(&rt) {
        Ok(words) => run(&rt, &rt, &words),
        Err(status) => status,
    };
    let mut line: ArrayVec<u8, STATUS_ROOM> = ArrayVec::new();
    status.put_line(&mut line);
    // Where standard error fails there is nowhere left to say so.
    let _ = rt.stderr().write_all(&line);
    ExitCode::from(status.number())
}

// The arguments behind the program's name.
fn words_of(rt: &HostRuntime) -> Result<Vec<String>, Status> {
    let args = match env::args(rt) {
        Ok(args) => args,
        Err(error) => return Err(status_of(&error)),
    };
    let mut words = Vec::new(rt.alloc());
    for word in args.skip(1) {
        if words.push(word).is_err() {
            return Err(Status::NoMemory);
        }
    }
    Ok(words)
}

// What a program ends with that wasn't given its arguments. One that isn't UTF-8 is part of no command; any other cause
// is want of memory.
fn status_of(error: &io::Error) -> Status {
    match error.kind() {
        ErrorKind::InvalidData => Status::Usage,
        _ => Status::NoMemory,
    }
}
