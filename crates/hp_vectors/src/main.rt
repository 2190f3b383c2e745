//! Compares single steps of the machine with cases from outside, read from standard input: the number of each case that
//! differs with the first field that does, and then how many agree; by the flat machine, and by the processor. The
//! status is 1 where any differs.
#![tactic(auto)]

mod case;
mod fields;
mod processor;

use case::{Case, Verdict};
use std::io;
use std::process::ExitCode;

/// How many cases agree, and how many differ.
#[derive(Clone, Copy)]
struct Tally {
    agree: u64,
    differ: u64,
}

impl Tally {
    /// Counts a case. The answer has its number and field where it differs.
    fn count(&mut self, verdict: Verdict) -> Option<(u32, &'static str)> {
        match verdict {
            Verdict::Agrees => {
                self.agree = self.agree.wrapping_add(1);
                None
            }
            Verdict::Differs(number, field) => {
                self.differ = self.differ.wrapping_add(1);
                Some((number, field))
            }
        }
    }
}

fn main(rt: HostRuntime) -> io::Result<ExitCode> {
    let mut case = Case::new(rt.alloc());
    let mut flat = Tally {
        agree: 0,
        differ: 0,
    };
    let mut processor = flat;
    for line in rt.lines(rt.alloc()) {
        let Some(judged) = case.take(rt.alloc(), line?.as_str())? else {
            continue;
        };
        if let Some((number, field)) = flat.count(judged.flat) {
            println!(rt; "{number} {field}")?;
        }
        if let Some((number, field)) = processor.count(judged.processor) {
            println!(rt; "{number} {field} by the processor")?;
        }
    }
    println!(rt; "{} agree, {} differ", flat.agree, flat.differ)?;
    println!(rt;
        "by the processor {} agree, {} differ",
        processor.agree, processor.differ
    )?;
    Ok(ExitCode::from(if flat.differ == 0 && processor.differ == 0 {
        0
    } else {
        1
    }))
}
