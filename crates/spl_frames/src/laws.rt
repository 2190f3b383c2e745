//! Laws of live frames, each as the contract of a function that does nothing.
ghost use Rattle.spl_frames.specs.Sizes.{ValuesHaveTheirWords};
ghost use Rattle.spl_frames.specs.Waiting.{DepthsCoverCalls, DepthsCoverUses};
ghost use Rattle.spl_frames.specs.Laws.{PartsKeepFrames, WordsStayWords, LawfulStatesStay, CallsEnter, BodiesBeginLawfully, OpeningsHaveTheirWords};

/// Values, references, arguments and statements leave the live frame as it is, with each data word below its top, and make no other.
pub fn parts_keep_frames()
    ensures { PartsKeepFrames }
{}

/// A value has the words of its kind, arguments those of their parameters, and a call those of its result.
pub fn values_have_their_words()
    ensures { ValuesHaveTheirWords }
{}

/// Every value and data word of a run is below 65,536, where its lines are bytes.
pub fn words_stay_words()
    ensures { WordsStayWords }
{}

/// A state in which each data word of the live frames is there, and each frame has its room, stays so.
pub fn lawful_states_stay()
    ensures { LawfulStatesStay }
{}

/// Where there is room, and steps for its local words, a call runs its body from the data with which it begins.
pub fn calls_enter()
    ensures { CallsEnter }
{}

/// From a lawful state a call with its room, and as many words as its parameters have, begins in one; so does the main body.
pub fn bodies_begin_lawfully()
    ensures { BodiesBeginLawfully }
{}

/// The data words of a session's opening are those of the program.
pub fn openings_have_their_words()
    ensures { OpeningsHaveTheirWords }
{}

/// A part calls nothing that reaches more words above the frame than wait before it and its depth says.
pub fn depths_cover_calls()
    ensures { DepthsCoverCalls }
{}

/// No use of a name has more words waiting than wait before its part and the part's depth says.
pub fn depths_cover_uses()
    ensures { DepthsCoverUses }
{}
