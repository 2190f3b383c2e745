//! The stack with registers at its top: what it keeps, how it is made, and its mode.
ghost use Rattle.std.specs.Prelude.{◌≡◌, ◌+◌, ◌≤◌, length, false, true, IsTrue, ◌↔◌, vec_len, vec_capacity};
ghost use Rattle.hp_tos.specs.Lists.{lists};
ghost use Rattle.hp_tos.specs.Seen.{IsSound, made};
ghost use Rattle.hp_tos.specs.Representation.{seen_of};

use crate::data::Data;
use arrayvec::ArrayVec;
use hp_window::Whole;

/// A session's stack and extra segment. Contracts see it as one list of words with three numbers, by `seen`.
#[derive(Debug, Drop, PartialEq, Eq)]
pub struct Stack {
    /// The room of the stack, the extra segment and the mode.
    pub memory: Data,
    /// How many words stand in memory. They are the first of the room; what lies above them is of no account.
    pub sm: u16,
    /// The words in registers, the lowest first. SR is how many there are.
    pub top: ArrayVec<u16, 4>,
    /// How many words were moved from memory into a register, modulo 2 to the power 64.
    pub fills: u64,
    /// How many words were moved from a register into memory, modulo 2 to the power 64.
    pub spills: u64,
    ghost there: { sm + length top.items ≤ length (lists memory).stack },
    pub ghost sound: { IsSound (seen_of memory sm top.items fills spills) },
}

impl Stack {
    ghost use Rattle.hp_tos.specs.StackView.{seen};

    /// A stack in whole mode. Its room is `stack`, of which the first `words` words are there, none in a register.
    #[tactic(auto, unfolding(crate::specs::Representation::seen_of, crate::specs::Lists::lists))]
    pub fn make(stack: Vec<u16>, extra: Vec<u16>, words: u16) -> Stack
        requires words { words ≤ vec_len stack }
        requires stack { vec_len stack ≤ 32000 }
        requires extra { vec_len extra ≤ 32000 }
        ensures { seen result ≡ made stack.items (vec_capacity stack) extra.items (vec_capacity extra) words }
    {
        Stack {
            memory: Data::Whole(Whole { stack, extra }),
            sm: words,
            top: ArrayVec::new(),
            fills: 0,
            spills: 0,
        }
    }

    /// How many words are on the stack.
    #[tactic(auto, unfolding(crate::specs::Representation::seen_of))]
    #[inline]
    pub fn words(&self) -> u16
        ensures { result ≡ length (seen self.now).words }
    {
        self.sm + self.top.len() as u16
    }

    /// STACK, how many words fit.
    #[tactic(auto, unfolding(crate::specs::Representation::seen_of))]
    #[inline]
    pub fn limit(&self) -> u16
        ensures { result ≡ (seen self.now).limit }
    {
        self.memory.limit()
    }

    /// Whether the mode is split.
    #[tactic(auto, unfolding(crate::specs::Representation::seen_of))]
    #[inline]
    pub fn is_split(&self) -> bool
        ensures { result ≡ (seen self.now).split }
    {
        self.memory.is_split()
    }

    /// Goes into split mode. The answer is whether the mode was whole before.
    #[tactic(auto, unfolding(crate::specs::Representation::seen_of))]
    pub fn split(&mut self) -> bool
        ensures value { IsTrue result ↔ ((seen self.old).split ≡ false) }
        ensures kept { seen self.new ≡ record (seen self.old) { split = true } }
    {
        self.memory.split()
    }

    /// Goes into whole mode. The answer is whether the mode was split before.
    #[tactic(auto, unfolding(crate::specs::Representation::seen_of))]
    pub fn join(&mut self) -> bool
        ensures value { IsTrue result ↔ ((seen self.old).split ≡ true) }
        ensures kept { seen self.new ≡ record (seen self.old) { split = false } }
    {
        self.memory.join()
    }
}
