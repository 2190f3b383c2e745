//! Words and bytes at a place. Words in registers are read and written in their place.
ghost use Rattle.std.specs.Prelude.{◌≡◌, ◌<◌, ◌≤◌, length, IfErr, OnErr, MatchResult, Ok, Err};
ghost use Rattle.hp_word.specs.declared.endings.Trap.TheVariants.{Bounds};
ghost use Rattle.hp_session.specs.declared.registers.Regs.{Regs};
ghost use Rattle.hp_session.specs.State.{Machine};
ghost use Rattle.hp_session.specs.Places.{byte_read, byte_written, put, read_at, word_of_byte, written};
ghost use Rattle.hp_tos.specs.StackView.{seen};
ghost use Rattle.hp_rows.specs.Standing.{standing};

use hp_session::{Place, byte_of, with_byte};
use hp_tos::Stack;
use hp_word::Trap;

/// The word at a place.
#[tactic(auto, unfolding(hp_session::specs::Places::read_at, hp_session::specs::Places::area))]
pub fn read_at(stack: &Stack, place: Place) -> Result<u16, Trap>
    ensures value { (regs : Regs) (rest : Machine) → result ≡ read_at place (standing regs (seen stack.now) rest) }
    ensures trap { IfErr result (λ t. t ≡ Bounds) }
{
    let word = match place {
        Place::Db(a) => stack.read_db(a),
        Place::Stack(a) => stack.read_stack(a),
    };
    match word {
        Ok(word) => Ok(word),
        Err(_) => Err(Trap::Bounds),
    }
}

/// The place of the word that holds the byte at a byte place.
#[tactic(auto, unfolding(hp_session::specs::Places::word_of_byte))]
fn word_of_byte(place: Place) -> Place
    ensures { result ≡ word_of_byte place }
{
    match place {
        Place::Db(b) => Place::Db(b / 2),
        Place::Stack(b) => Place::Stack(b / 2),
    }
}

/// The byte at a byte place.
#[tactic(auto, unfolding(hp_session::specs::Places::byte_read))]
pub fn read_byte(stack: &Stack, place: Place) -> Result<u8, Trap>
    ensures value { (regs : Regs) (rest : Machine) → result ≡ byte_read place (standing regs (seen stack.now) rest) }
    ensures trap { IfErr result (λ t. t ≡ Bounds) }
{
    let word = read_at(stack, word_of_byte(place))?;
    Ok(byte_of(place.address() as usize, word))
}

/// Stores a word at a place. The numbers of the stack and the number of its words stay.
#[tactic(auto, unfolding(hp_session::specs::Places::written, hp_session::specs::Places::put, hp_session::specs::Places::area))]
pub fn write_at(stack: &mut Stack, place: Place, w: u16) -> Result<(), Trap>
    ensures value { (regs : Regs) (rest : Machine) → MatchResult result
        (λ _. written place w (standing regs (seen stack.old) rest) ≡ Ok (standing regs (seen stack.new) rest))
        (λ t. written place w (standing regs (seen stack.old) rest) ≡ Err t) }
    ensures trap { IfErr result (λ t. t ≡ Bounds) }
    ensures kept { seen stack.new ≡ record (seen stack.old) { words = (seen stack.new).words; extra = (seen stack.new).extra } }
    ensures same_length { length (seen stack.new).words ≡ length (seen stack.old).words }
    ensures err { OnErr result (stack.new ≡ stack.old) }
{
    let answer = match place {
        Place::Db(a) => stack.write_db(a, w),
        Place::Stack(a) => stack.write_stack(a, w),
    };
    match answer {
        Ok(()) => Ok(()),
        Err(_) => Err(Trap::Bounds),
    }
}

/// Puts a word at a place; past the end nothing changes.
#[tactic(auto, unfolding(hp_session::specs::Places::put), using(std::proofs::lemmas::List::set_past))]
pub fn put(stack: &mut Stack, place: Place, w: u16)
    ensures value { (regs : Regs) (rest : Machine) → standing regs (seen stack.new) rest ≡ put place w (standing regs (seen stack.old) rest) }
    ensures kept { seen stack.new ≡ record (seen stack.old) { words = (seen stack.new).words; extra = (seen stack.new).extra } }
    ensures same_length { length (seen stack.new).words ≡ length (seen stack.old).words }
{
    let _ = match place {
        Place::Db(a) => stack.write_db(a, w),
        Place::Stack(a) => stack.write_stack(a, w),
    };
}

/// Stores a byte at a byte place; the other byte of its word stays.
#[tactic(auto, unfolding(hp_session::specs::Places::byte_written))]
pub fn write_byte(stack: &mut Stack, place: Place, byte: u8) -> Result<(), Trap>
    ensures value { (regs : Regs) (rest : Machine) → MatchResult result
        (λ _. byte_written place byte (standing regs (seen stack.old) rest) ≡ Ok (standing regs (seen stack.new) rest))
        (λ t. byte_written place byte (standing regs (seen stack.old) rest) ≡ Err t) }
    ensures trap { IfErr result (λ t. t ≡ Bounds) }
    ensures kept { seen stack.new ≡ record (seen stack.old) { words = (seen stack.new).words; extra = (seen stack.new).extra } }
    ensures same_length { length (seen stack.new).words ≡ length (seen stack.old).words }
    ensures err { OnErr result (stack.new ≡ stack.old) }
{
    let at = word_of_byte(place);
    let word = read_at(stack, at)?;
    write_at(stack, at, with_byte(place.address() as usize, byte, word))
}
