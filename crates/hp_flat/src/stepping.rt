//! A `Flat` makes a step: its parts go into the session that the rows work on, and come back.
ghost use Rattle.std.specs.Prelude.{◌≡◌, ◌<◌, true, length};
ghost use Rattle.hp_word.specs.declared.endings.Ending.TheVariants.{Running};
ghost use Rattle.hp_program.specs.Programs.{segments_of};
ghost use Rattle.hp_session.specs.Keeping.{Continues, is_trapped};
ghost use Rattle.hp_flat.specs.Step.{step};

use crate::flat::Flat;
use crate::step::make_step;
use hp_program::Program;
use hp_session::Session;
use std::mem;

/// A vector with its room, out of its place, where an empty one stays. Takes no memory.
#[inline]
fn taken<T>(place: &mut Vec<T>) -> Vec<T>
    ensures { result ≡ place.old }
{
    let empty = Vec::new(*place.allocator());
    mem::replace(place, empty)
}

impl Flat {
    /// One step of a session that runs. Takes no memory: all room was reserved by `open`.
    pub fn step(&mut self, program: &Program)
        requires running { self.old.ending ≡ Running }
        requires segment { self.old.regs.seg < length (segments_of program.now) }
        ensures value { self.new ≡ step (segments_of program.now) self.old }
        // what every step keeps, and that a trap changes the ending alone
        ensures kept { Continues (length (segments_of program.now)) self.old self.new }
        ensures within { self.new.regs.seg < length (segments_of program.now) }
        ensures trap { is_trapped self.new.ending ≡ true → self.new ≡ record self.old { ending = self.new.ending } }
    {
        let mut session = Session {
            regs: self.regs,
            split: self.split,
            stack: taken(&mut self.stack),
            extra: taken(&mut self.extra),
            lines: taken(&mut self.lines),
            next_line: self.next_line,
            printed: taken(&mut self.printed),
            ending: self.ending,
            stack_limit: self.stack_limit,
            room: self.room,
        };
        make_step(&mut session, program);
        *self = Flat {
            regs: session.regs,
            split: session.split,
            stack: session.stack,
            extra: session.extra,
            lines: session.lines,
            next_line: session.next_line,
            printed: session.printed,
            ending: session.ending,
            stack_limit: session.stack_limit,
            room: session.room,
        };
    }
}
