//! Laws of program files, each as the contract of a function that does nothing.
ghost use Rattle.mpe_progfile.specs.Laws.{FilesAreRead, FilesAreNoFronts, FilesAreOfOneProgram};

/// A program's file is read as that program.
pub fn files_are_read()
    ensures { FilesAreRead }
{}

/// No file is a proper front of another.
pub fn files_are_no_fronts()
    ensures { FilesAreNoFronts }
{}

/// A file is that of one program.
pub fn files_are_of_one_program()
    ensures { FilesAreOfOneProgram }
{}
