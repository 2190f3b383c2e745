//! The program: the top call over standard input and output.
#![tactic(auto)]

use hp_outside::{StdSink, StdSource};
use hp3000_top::{Exit, hp3000_main};
use std::env;
use std::io::ErrorKind;
use std::process::ExitCode;

/// The words of the command line after the program's name. Err: how the program ends where there are none: memory is
/// wanting, or a word is no text, so that it is none of a verb.
fn words(rt: &HostRuntime) -> Result<Vec<String>, Exit> {
    let args = match env::args(rt) {
        Ok(args) => args,
        Err(error) => {
            return Err(match error.kind() {
                ErrorKind::OutOfMemory => Exit::NoMemory,
                _ => Exit::Usage,
            });
        }
    };
    let mut words = Vec::new(rt.alloc());
    for word in args.skip(1) {
        if words.push(word).is_err() {
            return Err(Exit::NoMemory);
        }
    }
    Ok(words)
}

/// The status with which the program ends. Where the words are those of no verb, standard error is told which there are; whether it takes
/// that does not matter, since the status says the same.
fn end(rt: &HostRuntime, exit: Exit) -> ExitCode {
    if let Exit::Usage = exit {
        let _told = eprintln!(rt;
            "usage: hp3000 run | prep | list, with an input, or hp3000 gen NUMBER"
        );
    }
    ExitCode::from(exit.status())
}

fn main(rt: HostRuntime) -> ExitCode {
    let words = match words(&rt) {
        Ok(words) => words,
        Err(exit) => return end(&rt, exit),
    };
    let mut input = StdSource {
        reader: rt.stdin(),
        faults: 0,
    };
    let mut output = StdSink {
        writer: rt.stdout(),
        faults: 0,
    };
    let mut made = Vec::new(rt.alloc());
    let mut ran = None;
    let exit = hp3000_main(
        rt.alloc(),
        &words,
        &mut input,
        &mut output,
        &mut made,
        &mut ran,
    );
    end(&rt, exit)
}
