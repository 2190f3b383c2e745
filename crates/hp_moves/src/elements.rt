//! Addresses and counts of an element, and the next one's.
ghost use Rattle.std.specs.Prelude.{◌≡◌, ◌≤◌, ◌<◌, [], ◌∷◌, length, IfOk, IfErr};
ghost use Rattle.hp_word.specs.declared.endings.Trap.TheVariants.{StackUnderflow};
ghost use Rattle.hp_memory_rows.specs.MoveRows.{nearer, onward};
ghost use Rattle.hp_tos.specs.StackView.{seen};
ghost use Rattle.hp_tos.specs.Calls.{filled, replaced, word_at};

use hp_memory_rows::{nearer, onward};
use hp_rows::need;
use hp_tos::Stack;
use hp_word::Trap;

/// The three words of a move: two addresses, and how many elements are left.
#[derive(Clone, Copy)]
pub(crate) struct Element {
    /// The target, or what is compared first.
    pub c: u16,
    /// The source, or what is compared second.
    pub b: u16,
    /// The count, negative where the move goes downwards.
    pub a: u16,
}

/// The words of the next element, which are needed in registers.
pub(crate) fn next_element(stack: &mut Stack) -> Result<Element, Trap>
    ensures ok { IfOk result (λ e. (3 ≤ length (seen stack.old).words) × (seen stack.new ≡ filled 3 (seen stack.old))
        × (e ≡ record { c = word_at 2 (seen stack.old); b = word_at 1 (seen stack.old); a = word_at 0 (seen stack.old) })) }
    ensures few { IfErr result (λ t. (t ≡ StackUnderflow) × (length (seen stack.old).words < 3) × (stack.new ≡ stack.old)) }
{
    need(stack, 3)?;
    Ok(Element {
        c: stack.word(2),
        b: stack.word(1),
        a: stack.word(0),
    })
}

/// Lets C and B address the next element, and A count one less. They are as before the element.
pub(crate) fn go_on(stack: &mut Stack, c: u16, b: u16, a: u16)
    requires { 3 ≤ (seen stack.old).in_registers }
    ensures { seen stack.new ≡ replaced 3 (onward a c ∷ onward a b ∷ nearer a ∷ []) (seen stack.old) }
{
    stack.replace(3, &[onward(a, c), onward(a, b), nearer(a)]);
}
