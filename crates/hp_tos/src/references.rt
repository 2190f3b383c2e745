//! References to data. An address of a word that stands in a register is one of the register: memory may hold an older word there.
ghost use Rattle.std.specs.Prelude.{◌≡◌, length, OnOk, OnErr};
ghost use Rattle.hp_tos.specs.References.{db_words, read_of, write_of, stack_written, db_written};

use crate::stack::Stack;
use hp_window::Bounds;

impl Stack {
    ghost use Rattle.hp_tos.specs.StackView.{seen};

    /// The word that DB addresses: one of the extra segment in split mode, else one of the stack.
    #[tactic(auto, unfolding(crate::specs::Representation::seen_of))]
    #[inline]
    pub fn read_db(&self, address: u16) -> Result<u16, Bounds>
        ensures { result ≡ read_of (db_words (seen self.now)) address }
    {
        if self.is_split() {
            self.memory.read_db(address, self.sm)
        } else {
            self.read_stack(address)
        }
    }

    /// Puts a word where DB addresses it: in the extra segment in split mode, else on the stack.
    #[tactic(auto, unfolding(crate::specs::Representation::seen_of))]
    #[inline]
    pub fn write_db(&mut self, address: u16, w: u16) -> Result<(), Bounds>
        ensures value { result ≡ write_of (db_words (seen self.old)) address }
        ensures ok { OnOk result (seen self.new ≡ db_written address w (seen self.old)) }
        ensures err { OnErr result (self.new ≡ self.old) }
    {
        if self.is_split() {
            self.memory.write_db(address, self.sm, w)
        } else {
            self.write_stack(address, w)
        }
    }

    /// The word of the stack at an address, in either mode.
    #[tactic(auto, unfolding(crate::specs::Representation::seen_of))]
    #[inline]
    pub fn read_stack(&self, address: u16) -> Result<u16, Bounds>
        ensures { result ≡ read_of (seen self.now).words address }
    {
        if address < self.sm {
            return Ok(self.memory.word(address));
        }
        match self.top.get((address - self.sm) as usize) {
            Some(&w) => Ok(w),
            None => Err(self.out_of_bounds(address)),
        }
    }

    /// Puts a word at an address of the stack, in either mode.
    #[tactic(auto, unfolding(crate::specs::Representation::seen_of))]
    #[inline]
    pub fn write_stack(&mut self, address: u16, w: u16) -> Result<(), Bounds>
        ensures value { result ≡ write_of (seen self.old).words address }
        ensures ok { OnOk result (seen self.new ≡ stack_written address w (seen self.old)) }
        ensures err { OnErr result (self.new ≡ self.old) }
    {
        if address < self.sm {
            self.memory.set_word(address, w);
            return Ok(());
        }
        let at = (address - self.sm) as usize;
        if at < self.top.len() {
            self.top[at] = w;
            Ok(())
        } else {
            Err(self.out_of_bounds(address))
        }
    }

    /// The refusal of an address.
    #[tactic(auto, unfolding(crate::specs::Representation::seen_of))]
    #[inline]
    fn out_of_bounds(&self, address: u16) -> Bounds
        ensures { result ≡ record { address = address; top = length (seen self.now).words } }
    {
        Bounds {
            address,
            top: self.words(),
        }
    }
}
