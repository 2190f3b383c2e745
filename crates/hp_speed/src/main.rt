//! Runs a loop on the processor, for as many steps as standard input says, and prints where it stands then. A word behind the number
//! names the loop. `speed/measure` takes the time of it.
#![tactic(auto)]

ghost use Rattle.std.specs.Prelude.{◌≤◌, length};

mod store;

use hp_cpu::{Cpu, Phase, Regs, Stack, Stepped};
use hp_word::Code;
use std::alloc::{AllocError, Global};
use std::io;
use store::OneSegment;

/// LOAD DB+0; LDI 1; LADD, NOP; STOR DB+0; BR to the first; and a table with one entry, which leads there too.
const SUMS: [u16; 8] = [0o041000, 0o020401, 0o006100, 0o051000, 0o140404, 0, 0, 1];

/// LDI 7; PCAL 2; BR to the first; at entry 2 LOAD Q-4; STOR DB+0; EXIT 1; and the table.
const CALLS: [u16; 9] = [0x2107, 0x3002, 0xC102, 0x4384, 0x5200, 0x3101, 3, 0, 2];

/// LDI 0; LDI 50; LDI 40; MOVE of 40 words; DEL, NOP; BR to the first; and the table.
const MOVES: [u16; 8] = [0x2100, 0x2132, 0x2128, 0x3900, 0x0800, 0xC105, 0, 1];

/// LDX DB+0; LOAD DB+1,X; LDI 1; LADD; STOR DB+1,X; then DB+0 becomes its sum with 1, AND 31; BR to the first; and the table.
const ELEMENTS: [u16; 14] = [
    0xB200, 0x4A01, 0x2101, 0x0C40, 0x5A01, 0x4200, 0x2101, 0x0C40, 0x211F, 0x0E00, 0x5200, 0xC10B,
    0, 1,
];

/// LOAD DB+0; four times LDI 1; four times LADD, so that one word is spilled and filled again; STOR DB+0; BR to the first; and the table.
const DEEP: [u16; 13] = [
    0x4200, 0x2101, 0x2101, 0x2101, 0x2101, 0x0C40, 0x0C40, 0x0C40, 0x0C40, 0x5200, 0xC10A, 0, 1,
];

/// A loop.
#[derive(Clone, Copy)]
enum Loop {
    Sums,
    Calls,
    Moves,
    Elements,
    Deep,
}

/// The loop that a word names; sums where it names none.
fn loop_named(word: &str) -> Loop {
    match word {
        "calls" => Loop::Calls,
        "moves" => Loop::Moves,
        "elements" => Loop::Elements,
        "deep" => Loop::Deep,
        _ => Loop::Sums,
    }
}

/// The words of a loop.
fn words_of(which: Loop) -> &'static [u16]
    ensures { length result.now ≤ 16383 }
{
    match which {
        Loop::Sums => &SUMS,
        Loop::Calls => &CALLS,
        Loop::Moves => &MOVES,
        Loop::Elements => &ELEMENTS,
        Loop::Deep => &DEEP,
    }
}

/// A processor at the first word of a segment, with 100 data words of 0 beneath the main body's marker.
fn opened(alloc: Global) -> Result<Cpu, AllocError> {
    let stack = Stack::make(vec![in alloc; 0; 1024]?, Vec::new(alloc), 104);
    let regs = Regs {
        x: 0,
        q: 103,
        p: 0,
        seg: 0,
        traps: true,
        right: false,
        overflow: false,
        carry: false,
        code: Code::Equal,
    };
    Ok(Cpu {
        regs,
        phase: Phase::Ready,
        stack,
        segments: 1,
    })
}

/// Makes so many steps, or fewer where one does not go. The answer is how many were made.
fn run(cpu: &mut Cpu, code: &OneSegment, steps: u32) -> u32 {
    for made in 0..steps {
        match cpu.step(code) {
            Stepped::Went => {}
            Stepped::Absent(_) | Stepped::Gate(_) | Stepped::Trapped(_) => return made,
        }
    }
    steps
}

fn main(rt: HostRuntime) -> io::Result<()> {
    let mut steps = 0;
    let mut which = Loop::Sums;
    for line in rt.lines(rt.alloc()) {
        let line = line?;
        let mut parts = line.as_str().split_whitespace();
        steps = parts.next().unwrap_or("0").parse::<u32>().unwrap_or(0);
        which = loop_named(parts.next().unwrap_or(""));
    }
    let code = OneSegment {
        words: words_of(which),
    };
    let mut cpu = opened(rt.alloc())?;
    let made = run(&mut cpu, &code, steps);
    let word = cpu.stack.read_stack(0).unwrap_or(0);
    println!(rt;
        "{made} steps, P {}, {} words, the first is {word}",
        cpu.regs.p,
        cpu.stack.words()
    )?;
    Ok(())
}
