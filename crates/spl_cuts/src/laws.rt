//! Laws of cutting, each as the contract of a function that does nothing.
ghost use Rattle.spl_cuts.specs.Laws.{CutsAreRead, TextsAreCut, FaultsAreRead, FaultsAreFirst, CutsAreUnique, CutsAreSound, BadPiecesAreUnique, FaultsAreUnique, SegmentsAreFew, FaultsEnd, FaultsStand, CutsAreWhole, EndedFaultsAreFirst};

/// A text is read as the list that it is cut into.
pub fn cuts_are_read()
    ensures { CutsAreRead }
{}

/// The list that is read of a text is the one that it is cut into.
pub fn texts_are_cut()
    ensures { TextsAreCut }
{}

/// The first fault of a text is the one that is read.
pub fn faults_are_read()
    ensures { FaultsAreRead }
{}

/// The fault that is read of a text is its first.
pub fn faults_are_first()
    ensures { FaultsAreFirst }
{}

/// A text is cut in at most one way.
pub fn cuts_are_unique()
    ensures { CutsAreUnique }
{}

/// A text that is cut has no bad piece.
pub fn cuts_are_sound()
    ensures { CutsAreSound }
{}

/// A text has at most one bad piece.
pub fn bad_pieces_are_unique()
    ensures { BadPiecesAreUnique }
{}

/// A text has at most one first fault.
pub fn faults_are_unique()
    ensures { FaultsAreUnique }
{}

/// Each segment but the first takes a command line of at least 17 bytes.
pub fn segments_are_few()
    ensures { SegmentsAreFew }
{}

/// The piece of a first fault ends somewhere in the text.
pub fn faults_end()
    ensures { FaultsEnd }
{}

/// A fault whose piece ends somewhere is a first fault.
pub fn ended_faults_are_first()
    ensures { EndedFaultsAreFirst }
{}

/// A text that begins as one with a fault, up to the end of the fault's piece and one byte more, is not cut; or too many tokens
/// arise in both.
pub fn faults_stand()
    ensures { FaultsStand }
{}

/// A list that a text is cut into ends with its only end, and each of its tokens has the unit's number and one of its segments.
pub fn cuts_are_whole()
    ensures { CutsAreWhole }
{}
