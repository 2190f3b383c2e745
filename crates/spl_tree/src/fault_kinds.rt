//! What may be wrong with the text of a unit.
ghost use Rattle.std.specs.Prelude.{◌≡◌, codes};
ghost use Rattle.spl_tree.specs.FaultKinds.{kind_name};

/// What is wrong with a text, in the order in which the kinds count at one place.
#[derive(Clone, Copy, Debug, PartialEq, Eq)]
pub enum FaultKind {
    BadByte,
    BadCommand,
    OpenString,
    OpenComment,
    NameTooLong,
    NumberTooLarge,
    BadDefine,
    TooManyTokens,
    /// No unit goes on with the token.
    Syntax,
    /// With the token more than 64 constructs are open.
    TooDeep,
}

impl FaultKind {
    /// The kind's name in a refusal.
    pub fn name(self) -> &'static str
        ensures { result.now ≡ kind_name self }
    {
        match self {
            FaultKind::BadByte => "BADBYTE",
            FaultKind::BadCommand => "BADCOMMAND",
            FaultKind::OpenString => "OPENSTRING",
            FaultKind::OpenComment => "OPENCOMMENT",
            FaultKind::NameTooLong => "NAMETOOLONG",
            FaultKind::NumberTooLarge => "NUMBERTOOLARGE",
            FaultKind::BadDefine => "BADDEFINE",
            FaultKind::TooManyTokens => "TOOMANYTOKENS",
            FaultKind::Syntax => "SYNTAX",
            FaultKind::TooDeep => "TOODEEP",
        }
    }
}
