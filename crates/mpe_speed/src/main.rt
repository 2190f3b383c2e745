//! Makes steps through turns of a monitor, or loads segments, as standard input says: a word that says what, a number of steps or
//! loads, and the steps of a turn. Prints what came of it. `speed/measure` takes the time of it.
#![tactic(auto)]

mod jobs;
mod loads;
mod steps;

use jobs::Job;
use loads::{copied, loaded};
use std::io;
use steps::in_turns;

/// What is measured.
#[derive(Clone, Copy)]
enum Task {
    /// Steps in turns.
    Turns(Job),
    /// Turns of one step, each with a load.
    Loads,
    /// Copies of as many words.
    Copies,
}

/// The task that a word names; a loop in turns where it names none.
fn task_named(word: &str) -> Task {
    match word {
        "calls-in-turns" => Task::Turns(Job::Calls),
        "loads" => Task::Loads,
        "copies" => Task::Copies,
        _ => Task::Turns(Job::Loop),
    }
}

fn main(rt: HostRuntime) -> io::Result<()> {
    let alloc = rt.alloc();
    let mut what = Task::Turns(Job::Loop);
    let mut count = 0;
    let mut quantum = 100;
    for line in rt.lines(alloc) {
        let line = line?;
        let mut words = line.as_str().split_whitespace();
        what = task_named(words.next().unwrap_or(""));
        count = words.next().unwrap_or("0").parse::<u32>().unwrap_or(0);
        quantum = words.next().unwrap_or("100").parse::<u32>().unwrap_or(100);
    }
    let told = match what {
        Task::Turns(job) => in_turns(alloc, job, count, quantum)?,
        Task::Loads => loaded(alloc, count)?,
        Task::Copies => copied(alloc, count, 16383)?,
    };
    println!(rt; "{told}")?;
    Ok(())
}
