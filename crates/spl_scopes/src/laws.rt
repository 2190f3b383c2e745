//! What holds of the bodies that scopes are of.
ghost use Rattle.spl_scopes.specs.ProgramBodies.{ProceduresAreOfUnits, MainIsOfUnits};

/// The bodies of units are those of the program that they make.
pub fn bodies_are_of_the_program()
    ensures procedures { ProceduresAreOfUnits }
    ensures main { MainIsOfUnits }
{}
