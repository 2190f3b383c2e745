//! One step of a processor.
ghost use Rattle.std.specs.Prelude.{◌≡◌};

use crate::acts::act;
use crate::cpu::{Cpu, Stepped};
use hp_calls::{Phase, finish_transfer};
use hp_program::{CodeStore, Fetched};
use hp_word::Trap;

impl Cpu {
    ghost use Rattle.std.specs.Prelude.{ℕ, List, length};
    ghost use Rattle.hp_tos.specs.StackView.{seen};
    ghost use Rattle.hp_calls.specs.Phases.{HoldsOf};
    ghost use Rattle.hp_cpu.specs.Answers.{CanBeServed};
    ghost use Rattle.hp_cpu.specs.Steps.{Steps};
    ghost use Rattle.hp_cpu.specs.Suits.{AreValid, KeepsRoom, Suits};

    /// One step, with the code that a store holds. A transfer that is under way is finished first.
    ///
    /// What the store holds are segments of one program, of as many segments as the processor's number says: the step is then
    /// the flat machine's in that program. It needs one segment. Where the store does not hold that one the answer is `Absent`,
    /// as often as the step is tried, and nothing at all has changed. A trap, and the call of an intrinsic, leave the flat state
    /// that the processor stands for as it was: the list of words, the extra segment, the registers and the mode. A transfer that
    /// was under way is finished by then, and words may have moved between registers and memory. An intrinsic that is called
    /// finds whole mode and every word in memory, so it can be served at once. Takes no memory.
    #[inline(always)]
    pub fn step<C: CodeStore>(&mut self, code: &C) -> Stepped
        ensures steps { (program : List (List ℕ)) → HoldsOf program (C.held code.now) → length program ≡ self.old.segments
            → Steps program (C.held code.now) self.old result self.new }
        ensures room { (program : List (List ℕ)) → HoldsOf program (C.held code.now) → length program ≡ self.old.segments → KeepsRoom self.old self.new }
        // in a valid program its calls and returns lead somewhere
        ensures suits { (program : List (List ℕ)) (main entry : ℕ) (globals : List ℕ) → AreValid program main entry globals
            → HoldsOf program (C.held code.now) → Suits program self.old → Suits program self.new }
        // whatever the store holds
        ensures ready { CanBeServed result (seen self.new.stack) }
    {
        if let Err(seg) = finish_transfer(self.phase, &mut self.regs, code) {
            return Stepped::Absent(seg);
        }
        self.phase = Phase::Ready;
        match code.fetch(self.regs.seg, self.regs.p) {
            Fetched::Absent => Stepped::Absent(self.regs.seg),
            Fetched::Outside => Stepped::Trapped(Trap::CodeBounds),
            Fetched::Word(w) => act(
                w,
                self.segments,
                &mut self.regs,
                &mut self.stack,
                &mut self.phase,
                code,
            ),
        }
    }
}
