//! Steps in turns.
use crate::jobs::{Job, opened, program};
use mpe_turns::Monitor;
use std::alloc::{AllocError, Global};

/// Takes turns until so many steps were given.
fn take_turns(monitor: &mut Monitor, steps: u32, quantum: u32) -> u64 {
    for _ in 0..steps / quantum.max(1) {
        if quantum >= 1 && monitor.spent < 1 << 50 {
            if let Some(who) = monitor.next() {
                let _ = monitor.turn(who, quantum);
            }
        }
    }
    monitor.turns
}

/// So many steps of a job in turns.
pub fn in_turns(alloc: Global, job: Job, steps: u32, quantum: u32) -> Result<u64, AllocError> {
    let Some(program) = program(alloc, job)? else {
        return Ok(0);
    };
    let Some(mut monitor) = opened(alloc, program, 2048)? else {
        return Ok(0);
    };
    take_turns(&mut monitor, steps, quantum);
    Ok(monitor.sessions.iter().map(|s| s.steps).max().unwrap_or(0))
}
