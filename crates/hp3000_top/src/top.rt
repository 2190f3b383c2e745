//! The top call.
ghost use Rattle.std.specs.Prelude.{◌≡◌, ◌↔◌, ℕ, true, List, None, Some, Err, map, string_bytes, IfOk};
ghost use Rattle.hp_outside.specs.Faults.{Rose};
ghost use Rattle.std.specs.List.{list_all};
ghost use Rattle.hp3000_top.specs.Verbs.{asked};
ghost use Rattle.hp3000_top.specs.Carried.{is_byte};
ghost use Rattle.hp3000_top.specs.Answers.{TakesNone, IsWhole, IsTooLong, IsSilent, IsAnswer, Delivers, Refuses, BreaksOff, AreAsAlone, IsSurelyDone, IsDone, IsSurelyRefused, IsRefusedBy, MadeAt, RanAt};
ghost use Rattle.hp3000_top.specs.Decided.{IsLeftToWords, IsDecided};
ghost use Rattle.hp3000_top.specs.Steps.{IsInput, IsTaken};

use crate::answer::Answer;
use crate::answering::answer_of;
use crate::exit::Exit;
use crate::ran::Ran;
use crate::verbs::{Verb, verb_of};
use hp_outside::{ReadAll, Sink, Source, read_all, write_all};
use hp_program::Program;
use job_gen::generate;
use spl_numbered::texts_number_segments;
use spl_safe_programs::{sound_programs_are_never_lost, sound_programs_carry};
use spl_shapes::{cut_tokens_have_bytes, spelled_units_are_shaped};
use std::alloc::Global;

/// The greatest number of bytes of an input.
const LIMIT: usize = 1_048_576;

/// The bytes that a verb is about: the text of the generated job, where nothing is read; or the input, read to its end.
fn bytes_for<I: Source>(alloc: Global, verb: Verb, input: &mut I) -> Result<Vec<u8>, ReadAll>
    ensures ok { IfOk result (λ bytes. IsInput 1048576 verb (I.left input.old) (I.left input.new) bytes.items) }
    ensures unread { TakesNone (Some verb) → input.new ≡ input.old }
    ensures read_fault { result ≡ Err ReadAll.ReadFault → Rose (I.faults input.old) (I.faults input.new) }
    ensures too_long { result ≡ Err ReadAll.TooLong → IsTooLong 1048576 (Some verb) (I.left input.old) }
{
    match verb {
        Verb::Gen(number) => Ok(generate(alloc, number)?),
        Verb::Run | Verb::Prep | Verb::List => read_all(alloc, input, LIMIT),
    }
}

/// Writes an answer whole, and hands over what is left of it; or leaves all as it was, where the sink fails.
fn deliver<O: Sink>(
    answer: Answer,
    output: &mut O,
    made: &mut Vec<Program>,
    ran: &mut Option<Ran>,
) -> Exit
    ensures { IsTaken answer (O.written output.old) (O.written output.new) (Rose (O.faults output.old) (O.faults output.new)) made.old.items made.new.items ran.old ran.new result }
{
    if write_all(output, answer.text()).is_err() {
        return Exit::WriteFault;
    }
    match answer {
        Answer::Report {
            made: programs,
            monitor,
            text: _text,
        } => {
            *made = programs;
            *ran = Some(Ran::Plain(monitor));
            Exit::Done
        }
        Answer::Crowded {
            made: programs,
            line: _line,
        } => {
            *made = programs;
            Exit::Refused
        }
        Answer::File {
            made: programs,
            text: _text,
        } => {
            *made = programs;
            Exit::Done
        }
        Answer::Listing { text: _text } => Exit::Done,
        Answer::Refusal { line: _line } => Exit::Refused,
    }
}

/// That what was read is bytes; it does nothing.
fn are_bytes(bytes: &[u8])
    ensures { list_all is_byte bytes.now ≡ true }
{}

/// Does what the words of the command line say: reads the input, and writes the output whole, or as far as the sink takes
/// it.
///
/// `words` are the words after the program's name: `run` takes a job and writes its report, `prep` a job of one program and no
/// session and writes the program's file, `list` such a file and writes its listing; `gen` and a number take nothing, and write
/// the summary of the run of the generated job with that number. An input has at most 1,048,576 bytes. At `Done` with `run`,
/// `gen` or `prep` the list `made` holds the programs of the job, one for each program text in its order; at a refusal for want
/// of the job's memory it holds them too. At `Done` with `run` or `gen` the monitor, as the last turn left it, is in `ran`. At
/// every other answer both are as before. Want of memory of this machine may come in place of any later answer, and
/// then nothing was written.
pub fn hp3000_main<I: Source, O: Sink>(
    alloc: Global,
    words: &Vec<String>,
    input: &mut I,
    output: &mut O,
    made: &mut Vec<Program>,
    ran: &mut Option<Ran>,
) -> Exit
    // Each answer, and when it comes.
    ensures usage { (result ≡ Exit.Usage) ↔ (asked (map (λ w. string_bytes w) words.now.items) ≡ None) }
    ensures read_fault { result ≡ Exit.ReadFault → Rose (I.faults input.old) (I.faults input.new) }
    ensures too_long { result ≡ Exit.InputTooLong → IsTooLong 1048576 (asked (map (λ w. string_bytes w) words.now.items)) (I.left input.old) }
    ensures write_fault { result ≡ Exit.WriteFault → Rose (O.faults output.old) (O.faults output.new) }

    // What was read.
    ensures unread { TakesNone (asked (map (λ w. string_bytes w) words.now.items)) → input.new ≡ input.old }
    ensures whole { IsAnswer result → IsWhole 1048576 (asked (map (λ w. string_bytes w) words.now.items)) (I.left input.old) (I.left input.new) }

    // What was written.
    ensures silent { IsSilent result → output.new ≡ output.old }
    ensures broken { result ≡ Exit.WriteFault → BreaksOff (asked (map (λ w. string_bytes w) words.now.items)) (I.left input.old) (O.written output.old) (O.written output.new) }
    ensures refused { result ≡ Exit.Refused → Refuses (asked (map (λ w. string_bytes w) words.now.items)) (I.left input.old) (O.written output.old) (O.written output.new) }
    ensures done { result ≡ Exit.Done → Delivers (asked (map (λ w. string_bytes w) words.now.items)) (I.left input.old) made.new.items ran.new (O.written output.old) (O.written output.new) }

    // The headline: each session has printed and ended exactly as its source, run alone, has at some step, unless that run made a stray reference; and
    // the programs carry their sources, both ways. And when it has to be done, or refused, or either, as the words of the programs decide.
    ensures headline { result ≡ Exit.Done → AreAsAlone (asked (map (λ w. string_bytes w) words.now.items)) (I.left input.old) made.new.items (O.written output.old) (O.written output.new) }
    ensures complete { IsSurelyDone (asked (map (λ w. string_bytes w) words.now.items)) (I.left input.old) → (Rose (I.faults input.old) (I.faults input.new) → ⊥) → (Rose (O.faults output.old) (O.faults output.new) → ⊥) → IsDone result }
    ensures decided { IsLeftToWords (asked (map (λ w. string_bytes w) words.now.items)) (I.left input.old) → (Rose (I.faults input.old) (I.faults input.new) → ⊥) → (Rose (O.faults output.old) (O.faults output.new) → ⊥) → IsDecided result (asked (map (λ w. string_bytes w) words.now.items)) (I.left input.old) (O.written output.old) (O.written output.new) }
    ensures faulty { (line : List ℕ) → IsSurelyRefused (asked (map (λ w. string_bytes w) words.now.items)) (I.left input.old) line → (Rose (I.faults input.old) (I.faults input.new) → ⊥) → (Rose (O.faults output.old) (O.faults output.new) → ⊥) → IsRefusedBy result (O.written output.old) (O.written output.new) line }

    // What is made, and left of the run.
    ensures programs { MadeAt result (asked (map (λ w. string_bytes w) words.now.items)) (I.left input.old) (O.written output.old) (O.written output.new) made.old.items made.new.items }
    ensures kept { RanAt result (asked (map (λ w. string_bytes w) words.now.items)) ran.old ran.new }
{
    let Some(verb) = verb_of(words) else {
        return Exit::Usage;
    };
    let bytes = match bytes_for(alloc, verb, input) {
        Ok(bytes) => bytes,
        Err(ReadAll::ReadFault) => return Exit::ReadFault,
        Err(ReadAll::TooLong) => return Exit::InputTooLong,
        Err(ReadAll::NoMemory) => return Exit::NoMemory,
    };
    let Ok(answer) = answer_of(alloc, verb, &bytes) else {
        return Exit::NoMemory;
    };
    are_bytes(&bytes);
    texts_number_segments();
    spelled_units_are_shaped();
    cut_tokens_have_bytes();
    sound_programs_carry();
    sound_programs_are_never_lost();
    deliver(answer, output, made, ran)
}
