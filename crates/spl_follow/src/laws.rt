//! The laws of this crate, as the contracts of functions that do nothing.
ghost use Rattle.spl_follow.specs.Laws.{VisitsAddUp, PrintsAddUp, BytesAreAllPrints, StretchesAddUp, PiecesAreMet, PiecesStandInOrder, PiecesStandFrom, LastPiecesClose, RowsGiveValues, RowsDropWords, RowsStoreWords, RowsStoreFar, RowsTestValues, RowsTrap, BranchesArrive, ValuesFollow, ValuesAreTested, TestsDecide, NotedStatementsBegin, PlainStatementsBegin, EmptyStatementsRun, StatementsFollow};

/// So many steps and then so many more meet and print what the first and then the others do; and where no step takes back a
/// byte, the bytes printed are all prints.
pub fn steps_add_up()
    ensures visits { VisitsAddUp }
    ensures prints { PrintsAddUp }
    ensures bytes { BytesAreAllPrints }
{}

/// One stretch after another: charges add up, and what the first has to spare serves the second.
pub fn stretches_add_up()
    ensures { StretchesAddUp }
{}

/// Through a piece the machine meets what is due there and nothing else, prints once at most, and is charged its words.
pub fn pieces_are_met()
    ensures { PiecesAreMet }
{}

/// Pieces and then others stand one behind the other, where nothing is due between.
pub fn pieces_stand_in_order()
    ensures closed { PiecesStandInOrder }
    ensures from_place { PiecesStandFrom }
    ensures last { LastPiecesClose }
{}

/// What a row leaves is a value, a word less, a word stored, a test, a trap, or a branch, as code promises it.
pub fn rows_do_what_code_says()
    ensures value { RowsGiveValues }
    ensures dropped { RowsDropWords }
    ensures stored { RowsStoreWords }
    ensures far { RowsStoreFar }
    ensures tested { RowsTestValues }
    ensures trapped { RowsTrap }
    ensures branched { BranchesArrive }
{}

/// A value waits while another is made, and both are one.
pub fn values_follow()
    ensures { ValuesFollow }
{}

/// A value and then the branch that deletes it is a test, which decides as the value's lowest bit does.
pub fn values_are_tested()
    ensures test { ValuesAreTested }
    ensures truth { TestsDecide }
{}

/// A statement begins with a step, which pays for its code; one that can be stopped at is met as it is noted; and one that
/// does nothing runs.
pub fn statements_begin()
    ensures noted { NotedStatementsBegin }
    ensures plain { PlainStatementsBegin }
    ensures empty { EmptyStatementsRun }
{}

/// One statement, and then the others of its list.
pub fn statements_follow()
    ensures { StatementsFollow }
{}
