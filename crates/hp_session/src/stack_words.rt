//! What every row does with the words at the top of the stack: looks at them, takes, replaces and pushes them.
ghost use Rattle.std.specs.Prelude.{◌≡◌, ◌<◌, ◌≤◌, length, MatchResult};
ghost use Rattle.hp_word.specs.declared.endings.Trap.TheVariants.{StackUnderflow};
ghost use Rattle.hp_session.specs.State.{Does, deleted, word, without, instead, replaced, pushing, pushing_all};

use crate::session::Session;
use hp_word::Trap;

impl Session {
    /// The number of words on the stack.
    #[inline]
    pub fn words(&self) -> usize
        ensures value { result ≡ length self.now.stack }
        ensures limit { result ≤ self.now.stack_limit }
    {
        let _limit = self.stack_limit;
        self.stack.len()
    }

    /// The word that stands `depth` words beneath the top.
    #[inline]
    pub fn word(&self, depth: usize) -> u16
        requires { depth < length self.now.stack }
        ensures { result ≡ word depth self.now }
    {
        self.stack[self.stack.len() - 1 - depth]
    }

    /// Tests that there are `n` words to take.
    #[inline]
    pub fn need(&self, n: usize) -> Result<(), Trap>
        ensures { MatchResult result (λ _. n ≤ length self.now.stack) (λ t. (t ≡ StackUnderflow) × (length self.now.stack < n)) }
    {
        if self.stack.len() < n {
            Err(Trap::StackUnderflow)
        } else {
            Ok(())
        }
    }

    /// Pushes a word.
    #[inline]
    pub fn push(&mut self, w: u16) -> Result<(), Trap>
        ensures { Does (pushing w self.old) self.old result self.new }
    {
        let _limit = self.stack_limit;
        if self.stack.len() < self.stack_limit as usize {
            self.stack.push(w).unwrap();
            Ok(())
        } else {
            Err(Trap::StackOverflow)
        }
    }

    /// Pushes some words, the last of them on top.
    pub fn push_all(&mut self, words: &[u16]) -> Result<(), Trap>
        requires { length words.now ≤ 255 }
        ensures { Does (pushing_all words.now self.old) self.old result self.new }
    {
        let _limit = self.stack_limit;
        if self.stack.len() + words.len() <= self.stack_limit as usize {
            self.stack.extend_from_slice(words).unwrap();
            Ok(())
        } else {
            Err(Trap::StackOverflow)
        }
    }

    /// Deletes `n` words.
    #[inline]
    pub fn delete(&mut self, n: usize)
        ensures { self.new ≡ without n self.old }
    {
        self.stack.truncate(self.stack.len().saturating_sub(n));
    }

    /// Puts a word in place of `n`.
    #[inline]
    pub fn leave(&mut self, n: usize, w: u16)
        requires some { 1 ≤ n }
        requires there { n ≤ length self.old.stack }
        ensures { self.new ≡ instead n w self.old }
    {
        self.stack.truncate(self.stack.len() - n);
        self.stack.push(w).unwrap();
    }

    /// Puts as many words or fewer in place of `n`, the last of them on top.
    pub fn replace(&mut self, n: usize, words: &[u16])
        requires enough { length words.now ≤ n }
        requires there { n ≤ length self.old.stack }
        ensures { self.new ≡ replaced n words.now self.old }
    {
        self.stack.truncate(self.stack.len() - n);
        self.stack.extend_from_slice(words).unwrap();
    }

    /// Deletes `n` words, which must be there.
    #[tactic(auto, unfolding(crate::specs::State::deleted))]
    pub fn take(&mut self, n: usize) -> Result<(), Trap>
        ensures { Does (deleted n self.old) self.old result self.new }
    {
        self.need(n)?;
        self.delete(n);
        Ok(())
    }
}
