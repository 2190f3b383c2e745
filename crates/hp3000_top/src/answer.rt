//! What an input is answered by.
ghost use Rattle.std.specs.Prelude.{◌≡◌};
ghost use Rattle.hp3000_top.specs.Steps.{text_of};

use hp_program::Program;
use job_runs::Monitor;

/// What an input is answered by.
#[derive(Drop)]
pub enum Answer {
    /// The report of a job, with its programs, and the monitor as the last turn left it.
    Report {
        made: Vec<Program>,
        monitor: Monitor,
        text: Vec<u8>,
    },
    /// The line of a memory that is too small for the programs that were made.
    Crowded {
        made: Vec<Program>,
        line: Vec<u8>,
    },
    /// The file of the program that was made.
    File {
        made: Vec<Program>,
        text: Vec<u8>,
    },
    /// The listing of a program file.
    Listing {
        text: Vec<u8>,
    },
    /// A line that refuses it.
    Refusal {
        line: Vec<u8>,
    },
}

impl Answer {
    /// The bytes to be written.
    pub fn text(&self) -> &[u8]
        ensures { result.now ≡ text_of self.now }
    {
        match self {
            Answer::Report { text, .. } | Answer::File { text, .. } | Answer::Listing { text } =>
                text,
            Answer::Crowded { line, .. } | Answer::Refusal { line } => line,
        }
    }
}
