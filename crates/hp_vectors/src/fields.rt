//! The state of a session as a case tells it: fields of the form NAME=value, parted by blanks.

use hp_cpu::hp_flat::Regs;
use hp_word::{Code, Ending, Trap};
use std::alloc::{AllocError, Global};

/// The state before or after a step.
#[derive(Debug, Drop)]
pub struct State {
    pub regs: Regs,
    pub split: bool,
    /// How many of the top words stand in registers, and how many were filled and spilled.
    pub in_registers: u8,
    pub fills: u64,
    pub spills: u64,
    pub next_line: usize,
    pub ending: Ending,
    pub printed: Vec<u8>,
    pub stack: Vec<u16>,
    pub extra: Vec<u16>,
}

/// A decimal number; 0 where the text is none.
pub fn number(text: &str) -> u32 {
    text.parse::<u32>().unwrap_or(0)
}

/// A word in octal digits.
fn octal(text: &str) -> u16 {
    let mut word = 0u16;
    for &byte in text.as_bytes() {
        word = word.wrapping_mul(8).wrapping_add((byte % 8) as u16);
    }
    word
}

/// Octal words parted by commas.
pub fn words(alloc: Global, text: &str) -> Result<Vec<u16>, AllocError> {
    let mut words = Vec::new(alloc);
    for part in text.split(',') {
        if !part.is_empty() {
            words.push(octal(part))?;
        }
    }
    Ok(words)
}

/// The value of a hexadecimal digit.
fn digit(byte: u8) -> u8 {
    match byte {
        b'0'..=b'9' => byte - b'0',
        b'a'..=b'f' => byte - b'a' + 10,
        _ => 0,
    }
}

/// Bytes in pairs of hexadecimal digits.
pub fn bytes(alloc: Global, text: &str) -> Result<Vec<u8>, AllocError> {
    let mut bytes = Vec::new(alloc);
    let mut high = None;
    for &byte in text.as_bytes() {
        match high {
            None => high = Some(digit(byte)),
            Some(h) => {
                bytes.push((h % 16) * 16 + digit(byte) % 16)?;
                high = None;
            }
        }
    }
    Ok(bytes)
}

/// A trap by its number, 1 to 10.
fn trap(number: u32) -> Trap {
    match number {
        1 => Trap::IntegerOverflow,
        2 => Trap::DivideByZero,
        3 => Trap::Bounds,
        4 => Trap::StackOverflow,
        5 => Trap::StackUnderflow,
        6 => Trap::Illegal,
        7 => Trap::CodeBounds,
        8 => Trap::BadEntry,
        9 => Trap::OutputLimit,
        _ => Trap::Mode,
    }
}

/// An ending.
fn ending(text: &str) -> Ending {
    match text.split_once(':') {
        Some(("QUIT", n)) => Ending::Quit(n.parse::<i16>().unwrap_or(0)),
        Some((_, n)) => Ending::Trapped(trap(number(n))),
        None => if text == "RUNNING" {
            Ending::Running
        } else {
            Ending::Terminated
        },
    }
}

/// A condition code.
fn code(text: &str) -> Code {
    match text {
        "CCG" => Code::Greater,
        "CCL" => Code::Less,
        _ => Code::Equal,
    }
}

/// A word in decimal digits.
fn word(text: &str) -> u16 {
    (number(text) % 65536) as u16
}

impl State {
    /// The state of a line that has not been read.
    fn empty(alloc: Global) -> State {
        State {
            regs: Regs {
                x: 0,
                q: 0,
                p: 0,
                seg: 0,
                traps: false,
                right: false,
                overflow: false,
                carry: false,
                code: Code::Equal,
            },
            split: false,
            in_registers: 0,
            fills: 0,
            spills: 0,
            next_line: 0,
            ending: Ending::Running,
            printed: Vec::new(alloc),
            stack: Vec::new(alloc),
            extra: Vec::new(alloc),
        }
    }

    /// Takes a field.
    fn set(&mut self, alloc: Global, name: &str, value: &str) -> Result<(), AllocError> {
        match name {
            "SEG" => self.regs.seg = (number(value) % 256) as u8,
            "P" => self.regs.p = word(value),
            "R" => self.regs.right = value == "1",
            "X" => self.regs.x = word(value),
            "Q" => self.regs.q = word(value),
            "TRAPS" => self.regs.traps = value == "1",
            "OVERFLOW" => self.regs.overflow = value == "1",
            "CARRY" => self.regs.carry = value == "1",
            "CODE" => self.regs.code = code(value),
            "SPLIT" => self.split = value == "1",
            "SR" => self.in_registers = (number(value) % 256) as u8,
            "FILLS" => self.fills = value.parse::<u64>().unwrap_or(0),
            "SPILLS" => self.spills = value.parse::<u64>().unwrap_or(0),
            "NEXTLINE" => self.next_line = number(value) as usize,
            "ENDING" => self.ending = ending(value),
            "PRINTED" => self.printed = bytes(alloc, value)?,
            "STACK" => self.stack = words(alloc, value)?,
            "EXTRA" => self.extra = words(alloc, value)?,
            _ => {}
        }
        Ok(())
    }

    /// The state that the fields of a line tell.
    pub fn read(alloc: Global, line: &str) -> Result<State, AllocError> {
        let mut state = State::empty(alloc);
        for field in line.split_whitespace() {
            if let Some((name, value)) = field.split_once('=') {
                state.set(alloc, name, value)?;
            }
        }
        Ok(state)
    }
}
