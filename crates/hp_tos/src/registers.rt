//! The words that come and go at the top, and the numbers that count what moves between memory and registers.
//!
//! A fill moves a word from memory into a register, and a spill moves one back. What a word leaves in memory stays there, and
//! counts no more.
ghost use Rattle.std.specs.Prelude.{◌≡◌, ◌<◌, ◌≤◌, ◌+◌, length, min, OnOk, OnErr};
ghost use Rattle.hp_tos.specs.Calls.{taking, making_room, word_at, filled, pushed, popped, dropped, replaced, flushed};
ghost use Rattle.hp_tos.specs.Steps.{pushed_together};

use crate::refusals::{Overflow, Underflow};
use crate::stack::Stack;
use arrayvec::ArrayVec;

impl Stack {
    ghost use Rattle.hp_tos.specs.StackView.{seen};

    /// Needs the `n` top words in registers. Those that are wanting are filled from memory.
    #[tactic(auto, unfolding(crate::specs::Representation::seen_of))]
    #[inline]
    pub fn need(&mut self, n: u8) -> Result<(), Underflow>
        requires { n ≤ 4 }
        ensures value { result ≡ taking n (seen self.old) tt }
        ensures ok { OnOk result (seen self.new ≡ filled n (seen self.old)) }
        ensures err { OnErr result (self.new ≡ self.old) }
    {
        if self.top.len() < n as usize {
            if self.words() < n as u16 {
                return Err(self.underflow(n as u32));
            }
            self.fill(n);
        }
        // Told to the compiler, so that what is done with these words next tests nothing.
        if self.top.len() < n as usize {
            unreachable!();
        }
        Ok(())
    }

    /// Fills registers from memory until `n` are in use: the words beneath the lowest register go below it. It is apart from
    /// `need`, which mostly finds its words there.
    #[tactic(auto, unfolding(crate::specs::Representation::seen_of))]
    #[inline(never)]
    fn fill(&mut self, n: u8)
        requires few { n ≤ 4 }
        requires wanting { (seen self.old).in_registers < n }
        requires there { n ≤ length (seen self.old).words }
        ensures { seen self.new ≡ filled n (seen self.old) }
    {
        let many = n as u16 - self.top.len() as u16;
        let from = self.sm - many;
        let mut top = ArrayVec::new();
        for i in 0..many {
            top.push(self.memory.word(from + i));
        }
        for &w in self.top.as_slice() {
            top.push(w);
        }
        self.sm = from;
        self.top = top;
        self.fills = self.fills.wrapping_add(many as u64);
    }

    /// Puts a word on top, in a register. With four registers in use the lowest of them is spilled first.
    #[tactic(auto, unfolding(crate::specs::Representation::seen_of))]
    #[inline]
    pub fn push(&mut self, w: u16) -> Result<(), Overflow>
        ensures value { result ≡ making_room (seen self.old) }
        ensures ok { OnOk result (seen self.new ≡ pushed w (seen self.old)) }
        ensures err { OnErr result (self.new ≡ self.old) }
    {
        let limit = self.limit();
        if self.words() == limit {
            return Err(Overflow { limit });
        }
        self.put(w);
        Ok(())
    }

    /// Puts a word on top, in a register, where there is room for it.
    #[tactic(auto, unfolding(crate::specs::Representation::seen_of))]
    #[inline]
    pub fn put(&mut self, w: u16)
        requires { length (seen self.old).words < (seen self.old).limit }
        ensures { seen self.new ≡ pushed w (seen self.old) }
    {
        if self.top.is_full() {
            let lowest = self.top[0];
            self.top[0] = self.top[1];
            self.top[1] = self.top[2];
            self.top[2] = self.top[3];
            self.top[3] = w;
            self.memory.set_word(self.sm, lowest);
            self.sm += 1;
            self.spills = self.spills.wrapping_add(1);
        } else {
            self.top.push(w);
        }
    }

    /// Puts some words on top, the last of them highest, where there is room for all.
    #[tactic(auto, unfolding(crate::specs::Representation::seen_of))]
    pub fn put_all(&mut self, words: &[u16])
        requires { length (seen self.old).words + length words.now ≤ (seen self.old).limit }
        ensures { seen self.new ≡ pushed_together words.now (seen self.old) }
    {
        if words.len() <= self.top.remaining_capacity() {
            for &w in words {
                self.top.push(w);
            }
        } else {
            for &w in words {
                self.put(w);
            }
        }
    }

    /// Takes the top word away. It is needed in a register first.
    #[tactic(auto, unfolding(crate::specs::Representation::seen_of))]
    #[inline]
    pub fn pop(&mut self) -> Result<u16, Underflow>
        ensures value { result ≡ taking 1 (seen self.old) (word_at 0 (seen self.old)) }
        ensures ok { OnOk result (seen self.new ≡ popped (seen self.old)) }
        ensures err { OnErr result (self.new ≡ self.old) }
    {
        self.need(1)?;
        let w = self.word(0);
        self.top.pop();
        Ok(w)
    }

    /// The word that stands `depth` words beneath the top, which must be there. Nothing is filled.
    #[tactic(auto, unfolding(crate::specs::Representation::seen_of))]
    #[inline]
    pub fn word(&self, depth: u16) -> u16
        requires { depth < length (seen self.now).words }
        ensures { result ≡ word_at depth (seen self.now) }
    {
        let depth = depth as usize;
        let there = self.top.len();
        if depth < there {
            self.top[there - 1 - depth]
        } else {
            self.memory.word(self.sm - 1 - (depth - there) as u16)
        }
    }

    /// The word that stands `depth` words beneath the top, wherever it stands. Nothing is filled.
    #[tactic(auto, unfolding(crate::specs::Representation::seen_of))]
    #[inline]
    pub fn at(&self, depth: u16) -> Result<u16, Underflow>
        ensures { result ≡ taking (depth + 1) (seen self.now) (word_at depth (seen self.now)) }
    {
        if depth < self.words() {
            Ok(self.word(depth))
        } else {
            Err(self.underflow(depth as u32 + 1))
        }
    }

    /// Takes the `n` top words away, those in registers first. Nothing is filled.
    #[tactic(auto, unfolding(crate::specs::Representation::seen_of))]
    #[inline]
    pub fn drop_words(&mut self, n: u16) -> Result<(), Underflow>
        ensures value { result ≡ taking n (seen self.old) tt }
        ensures ok { OnOk result (seen self.new ≡ dropped n (seen self.old)) }
        ensures err { OnErr result (self.new ≡ self.old) }
    {
        if self.words() < n {
            return Err(self.underflow(n as u32));
        }
        let there = self.top.len();
        if (n as usize) <= there {
            self.top.truncate(there - n as usize);
        } else {
            self.sm -= n - there as u16;
            self.top = ArrayVec::new();
        }
        Ok(())
    }

    /// Puts as many words or fewer in place of the `n` top ones, which stand in registers. Nothing is filled or spilled.
    #[tactic(auto, unfolding(crate::specs::Representation::seen_of))]
    pub fn replace(&mut self, n: u8, words: &[u16])
        requires there { n ≤ (seen self.old).in_registers }
        requires enough { length words.now ≤ n }
        ensures { seen self.new ≡ replaced n words.now (seen self.old) }
    {
        // As in `need`.
        if self.top.len() < n as usize {
            unreachable!();
        }
        self.top.truncate(self.top.len() - n as usize);
        for &w in words {
            self.top.push(w);
        }
    }

    /// Spills every register.
    #[tactic(auto, unfolding(crate::specs::Representation::seen_of))]
    #[inline]
    pub fn flush(&mut self)
        ensures { seen self.new ≡ flushed (seen self.old) }
    {
        let many = self.top.len();
        self.spills = self.spills.wrapping_add(many as u64);
        self.memory.set_registers(self.sm, self.top.as_slice());
        self.sm += many as u16;
        self.top = ArrayVec::new();
    }

    /// The refusal of a number of words.
    #[tactic(auto, unfolding(crate::specs::Representation::seen_of))]
    fn underflow(&self, wanted: u32) -> Underflow
        ensures { result ≡ record { wanted = min wanted 255; there = length (seen self.now).words } }
    {
        Underflow {
            wanted: wanted.min(255) as u8,
            there: self.words(),
        }
    }
}
