//! Tells of the unit on standard input the first rule that it breaks, or that it breaks none. `speed/rules` takes the time of it.
#![tactic(auto)]

use hp_outside::{StdSource, read_all};
use spl_rule_tests::{Told, one};
use std::io;

/// The most bytes of a unit's text.
const MOST_BYTES: usize = 1_048_576;

fn main(rt: HostRuntime) -> io::Result<()> {
    let alloc = rt.alloc();
    let mut input = StdSource {
        reader: rt.stdin(),
        faults: 0,
    };
    let told = match read_all(alloc, &mut input, MOST_BYTES) {
        Ok(text) => one(alloc, &text),
        Err(_) => Told::Unread,
    };
    match told {
        Told::Sound => println!(rt; "SOUND")?,
        Told::Rule(rule, unit, line, column) => {
            println!(rt; "UNIT {unit} LINE {line} COLUMN {column} RULE {rule}")?;
        }
        Told::Unread => println!(rt; "NO UNIT")?,
    }
    Ok(())
}
