//! The frames of procedures are those of their bodies.
ghost use Rattle.spl_gen_body.specs.Routines.{FramesAreOfBodies};

/// The frame of a procedure, by what the generator has of it, is that of its body.
pub fn frames_are_of_bodies()
    ensures { FramesAreOfBodies }
{}
