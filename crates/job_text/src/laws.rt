//! Laws of job texts, each as the contract of a function that does nothing.
ghost use Rattle.job_text.specs.Laws.{TextsAreRead, JobsBreakNothing, JobsAreUnique, FaultsAreUnique, JobsFit, PreparedJobsAreSingle, LinesAreOfTexts};

/// Each text is a job, or breaks a rule first at a line.
pub fn texts_are_read()
    ensures { TextsAreRead }
{}

/// A text that is a job breaks no rule.
pub fn jobs_break_nothing()
    ensures { JobsBreakNothing }
{}

/// A text is at most one job.
pub fn jobs_are_unique()
    ensures { JobsAreUnique }
{}

/// A text has at most one first fault, and there one least rule.
pub fn faults_are_unique()
    ensures { FaultsAreUnique }
{}

/// A job keeps within its limits.
pub fn jobs_fit()
    ensures { JobsFit }
{}

/// A job to be prepared has one program, and no session.
pub fn prepared_jobs_are_single()
    ensures { PreparedJobsAreSingle }
{}

/// What sessions are to be typed are bytes of the text.
pub fn lines_are_of_texts()
    ensures { LinesAreOfTexts }
{}
