//! Turns with a load, and copies of as many words.
ghost use Rattle.std.specs.Prelude.{◌≡◌, length, IfOk};

use crate::jobs::{large, opened};
use mpe_turns::Monitor;
use std::alloc::{AllocError, Global};

/// Takes so many turns of one step, and gives the segment up after each.
fn load_again(monitor: &mut Monitor, loads: u32) -> u64 {
    for _ in 0..loads {
        if monitor.spent < 1 << 50 {
            if let Some(who) = monitor.next() {
                let _ = monitor.turn(who, 1);
            }
        }
        let _ = monitor.evict(0, 0);
    }
    monitor.overlay.loads
}

/// So many turns with a load each, of a segment of 16,383 words.
pub fn loaded(alloc: Global, loads: u32) -> Result<u64, AllocError> {
    let Some(program) = large(alloc)? else {
        return Ok(0);
    };
    let Some(mut monitor) = opened(alloc, program, 17407)? else {
        return Ok(0);
    };
    Ok(load_again(&mut monitor, loads))
}

/// Copies words over others so many times. The answer is the sum of one word of each copy.
fn copy_again(area: &mut [u16], words: &[u16], copies: u32) -> u64
    requires { length words.now ≡ length area.old }
{
    let mut sum = 0u64;
    for i in 0..copies {
        area.copy_from_slice(words);
        sum = sum.wrapping_add(area.get(i as usize).copied().unwrap_or(0) as u64);
    }
    sum
}

/// So many words, all the same.
fn filled(alloc: Global, word: u16, size: u16) -> Result<Vec<u16>, AllocError>
    ensures { IfOk result (λ words. length words.items ≡ size) }
{
    vec![in alloc; word; size as usize]
}

/// So many copies of so many words.
pub fn copied(alloc: Global, copies: u32, size: u16) -> Result<u64, AllocError> {
    let words = filled(alloc, 7, size)?;
    let mut area = filled(alloc, 0, size)?;
    Ok(copy_again(&mut area, &words, copies))
}
