//! What the rows of arithmetic leave: the result's words, and the flags and condition code that come with them.
ghost use Rattle.std.specs.Prelude.{◌≡◌, ◌<◌, ◌≤◌, length};
ghost use Rattle.hp_session.specs.State.{Does, with_code, without};
ghost use Rattle.hp_session.specs.Results.{settled, settled_below, settled_double, logical, coded, quotient, logical_quotient};

use crate::session::Session;
use crate::word_parts::{code_of, high_of, low_of};
use hp_word::{Arith, Code, Quotient, Trap, Wide};

impl Session {
    /// Puts an integer result in place of `n` words.
    #[tactic(auto, unfolding(crate::specs::Results::settled))]
    pub fn settle(&mut self, n: usize, r: Arith) -> Result<(), Trap>
        requires some { 1 ≤ n }
        requires there { n ≤ length self.old.stack }
        ensures { Does (settled n r self.old) self.old result self.new }
    {
        if r.overflow {
            return Err(Trap::IntegerOverflow);
        }
        self.leave(n, r.value);
        self.regs.overflow = false;
        self.regs.carry = r.carry;
        self.regs.code = r.code;
        Ok(())
    }

    /// Puts an integer result in place of B.
    #[tactic(auto, unfolding(crate::specs::Results::settled_below))]
    pub fn settle_below(&mut self, r: Arith) -> Result<(), Trap>
        requires { 2 ≤ length self.old.stack }
        ensures { Does (settled_below r self.old) self.old result self.new }
    {
        if r.overflow {
            return Err(Trap::IntegerOverflow);
        }
        let top = self.word(0);
        self.replace(2, &[r.value, top]);
        self.regs.overflow = false;
        self.regs.carry = r.carry;
        self.regs.code = r.code;
        Ok(())
    }

    /// Puts a double result in place of `n` words.
    #[tactic(auto, unfolding(crate::specs::Results::settled_double))]
    pub fn settle_double(&mut self, n: usize, r: Wide) -> Result<(), Trap>
        requires some { 2 ≤ n }
        requires there { n ≤ length self.old.stack }
        ensures { Does (settled_double n r self.old) self.old result self.new }
    {
        if r.overflow {
            return Err(Trap::IntegerOverflow);
        }
        self.replace(n, &[high_of(r.value), low_of(r.value)]);
        self.regs.overflow = false;
        self.regs.carry = r.carry;
        self.regs.code = r.code;
        Ok(())
    }

    /// Puts a logical result in place of two words.
    #[tactic(auto, unfolding(crate::specs::Results::logical))]
    pub fn settle_logical(&mut self, r: Arith) -> Result<(), Trap>
        requires { 2 ≤ length self.old.stack }
        ensures { Does (logical r self.old) self.old result self.new }
    {
        self.leave(2, r.value);
        self.regs.carry = r.carry;
        self.regs.code = r.code;
        Ok(())
    }

    /// Puts a word in place of `n`, and sets its condition code.
    pub fn leave_coded(&mut self, n: usize, w: u16)
        requires some { 1 ≤ n }
        requires there { n ≤ length self.old.stack }
        ensures { self.new ≡ coded n w self.old }
    {
        self.leave(n, w);
        self.regs.code = code_of(w);
    }

    /// Deletes `n` words, and sets the condition code.
    pub fn delete_coded(&mut self, n: usize, code: Code)
        ensures { self.new ≡ with_code code (without n self.old) }
    {
        self.delete(n);
        self.regs.code = code;
    }

    /// Puts quotient and remainder in place of two words.
    pub fn settle_quotient(&mut self, divided: Option<Quotient>) -> Result<(), Trap>
        requires { 2 ≤ length self.old.stack }
        ensures { Does (quotient divided self.old) self.old result self.new }
    {
        let q = divided.ok_or(Trap::DivideByZero)?;
        if q.overflow {
            return Err(Trap::IntegerOverflow);
        }
        self.replace(2, &[q.quotient, q.remainder]);
        self.regs.overflow = false;
        self.regs.code = code_of(q.quotient);
        Ok(())
    }

    /// Puts the quotient and remainder of a double in place of three words.
    pub fn settle_logical_quotient(&mut self, divided: Option<Quotient>) -> Result<(), Trap>
        requires { 3 ≤ length self.old.stack }
        ensures { Does (logical_quotient divided self.old) self.old result self.new }
    {
        let q = divided.ok_or(Trap::DivideByZero)?;
        self.replace(3, &[q.quotient, q.remainder]);
        self.regs.code = code_of(q.quotient);
        Ok(())
    }
}
