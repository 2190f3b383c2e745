//! Runs a loop of calls between two segments on the processor, for as many steps as standard input says, and prints where it
//! stands then. `speed/measure` takes the time of it.
#![tactic(auto)]

mod store;

use hp_cpu::{Cpu, Phase, Regs, Stack, Stepped};
use hp_word::Code;
use std::alloc::{AllocError, Global};
use std::io;
use store::TwoSegments;

/// PCAL 2; BR to the first; and two entries, the first of the other segment and offset 0.
const CALLS: [u16; 5] = [0x3002, 0o140401, 0x8101, 0, 2];

/// EXIT 0; and an entry, offset 0.
const CALLED: [u16; 3] = [0x3100, 0, 1];

/// A processor at the first word of the first segment, with one data word of 0 beneath the main body's marker.
fn opened(alloc: Global) -> Result<Cpu, AllocError> {
    let stack = Stack::make(vec![in alloc; 0; 1024]?, Vec::new(alloc), 5);
    let regs = Regs {
        x: 0,
        q: 4,
        p: 0,
        seg: 0,
        traps: true,
        right: false,
        overflow: false,
        carry: false,
        code: Code::Equal,
    };
    Ok(Cpu {
        regs,
        phase: Phase::Ready,
        stack,
        segments: 2,
    })
}

/// Makes so many steps, or fewer where one does not go. The answer is how many were made.
fn run(cpu: &mut Cpu, code: &TwoSegments<'_>, steps: u32) -> u32 {
    for made in 0..steps {
        match cpu.step(code) {
            Stepped::Went => {}
            Stepped::Absent(_) | Stepped::Gate(_) | Stepped::Trapped(_) => return made,
        }
    }
    steps
}

fn main(rt: HostRuntime) -> io::Result<()> {
    let mut steps = 0;
    for line in rt.lines(rt.alloc()) {
        let line = line?;
        steps = line.as_str().trim().parse::<u32>().unwrap_or(0);
    }
    let code = TwoSegments {
        first: &CALLS,
        second: &CALLED,
    };
    let mut cpu = opened(rt.alloc())?;
    let made = run(&mut cpu, &code, steps);
    println!(rt;
        "{made} steps, P {}, {} words",
        cpu.regs.p,
        cpu.stack.words()
    )?;
    Ok(())
}
