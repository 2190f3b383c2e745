//! Stacks with some of their words in registers, what they hold, and a program that lacks a segment.
ghost use Rattle.std.specs.Prelude.{◌==◌, None, if◌then◌else◌};

use hp_program::{CodeStore, Fetched, Program};
use hp_tos::Stack;
use std::alloc::{AllocError, Global};

/// A stack with room for so many words, these on it, so many of them in registers, and an extra segment of these.
pub fn stack_with(
    alloc: Global,
    limit: u8,
    words: &[u16],
    in_registers: u8,
    extra: &[u16],
) -> Result<Stack, AllocError> {
    let room = vec![in alloc; 0; limit as usize]?;
    let more = Vec::from_slice(alloc, extra.get(..9).unwrap_or(extra))?;
    let more = if more.len() <= 9 {
        more
    } else {
        Vec::new(alloc)
    };
    let mut stack = Stack::make(room, more, 0);
    for &w in words {
        let _ = stack.push(w);
    }
    stack.flush();
    if in_registers <= 4 {
        let _ = stack.need(in_registers);
    }
    Ok(stack)
}

/// Whether these are the words of a stack, the lowest first.
pub fn has_words(stack: &Stack, words: &[u16]) -> bool {
    let mut address = 0u16;
    for &w in words {
        if stack.read_stack(address) != Ok(w) {
            return false;
        }
        address = address.wrapping_add(1);
    }
    stack.words() as usize == words.len()
}

/// How many words stand in registers, and how many were filled and spilled since.
pub fn numbers(stack: &Stack, fills: u64, spills: u64) -> (u8, u64, u64) {
    (
        stack.top.len() as u8,
        stack.fills.wrapping_sub(fills),
        stack.spills.wrapping_sub(spills),
    )
}

/// A program without one of its segments.
#[derive(Drop)]
pub struct Lacking<'a> {
    pub program: &'a Program,
    pub seg: u8,
}

impl CodeStore for Lacking<'_> {
    ghost use Rattle.std.specs.Prelude.{slice_get};
    ghost use Rattle.hp_program.specs.Programs.{segments_of};

    ghost held = { λ store seg. if seg == store.seg then None else slice_get (segments_of store.program.now) seg };

    fn size(&self, seg: u8) -> Option<u16> {
        if seg == self.seg {
            None
        } else {
            self.program.size(seg)
        }
    }

    #[tactic(auto, unfolding(hp_program::specs::Stores::fetched))]
    fn fetch(&self, seg: u8, offset: u16) -> Fetched {
        if seg == self.seg {
            Fetched::Absent
        } else {
            self.program.fetch(seg, offset)
        }
    }
}
