//! The sizes of a session, and the options that give them.
ghost use Rattle.std.specs.Prelude.{◌≡◌, map, option_map};
ghost use Rattle.job_lines.specs.Numbers.{number_in};
ghost use Rattle.job_lines.specs.Sizes.{key_of, size_in, with_size, no_sizes, default_size, size_of, size_fits, fits_if_given, sizes_fit, behind, given_once, option, options};

use crate::numbers::number;

/// A size that an option gives: STACK and EXTRA in words, PRINT in bytes.
#[derive(Clone, Copy, Debug, PartialEq, Eq)]
pub enum Size {
    Stack,
    Extra,
    Print,
}

/// The sizes that were given, before their limits were looked at.
#[derive(Clone, Copy, Debug, PartialEq, Eq)]
pub struct Sizes {
    pub stack: Option<u64>,
    pub extra: Option<u64>,
    pub print: Option<u64>,
}

impl Size {
    /// The number is within the limits of the size.
    fn fits(self, number: u64) -> bool
        ensures { result ≡ size_fits self number }
    {
        match self {
            Size::Stack => 64 <= number && number <= 32_000,
            Size::Extra => number <= 32_000,
            Size::Print => 1 <= number && number <= 1_048_576,
        }
    }

    /// The number is within the limits, where one is given.
    fn fits_if_given(self, number: Option<u64>) -> bool
        ensures { result ≡ fits_if_given self number }
    {
        match number {
            None => true,
            Some(n) => self.fits(n),
        }
    }
}

/// The key of a size, with its mark.
fn key(size: Size) -> &'static [u8]
    ensures { result.now ≡ key_of size }
{
    match size {
        Size::Stack => b"STACK=",
        Size::Extra => b"EXTRA=",
        Size::Print => b"PRINT=",
    }
}

/// What stands behind the key of a size, in one word with it.
fn behind(size: Size, word: &[u8]) -> Option<&[u8]>
    ensures { option_map (λ d. d.now) result ≡ behind size word.now }
{
    word.strip_prefix(key(size))
}

/// What a size is where none is given.
fn default_size(size: Size) -> u64
    ensures { result ≡ default_size size }
{
    match size {
        Size::Stack => 1_024,
        Size::Extra => 0,
        Size::Print => 16_384,
    }
}

impl Sizes {
    /// Before the first option.
    pub(crate) fn none() -> Sizes
        ensures { result ≡ no_sizes }
    {
        Sizes {
            stack: None,
            extra: None,
            print: None,
        }
    }

    /// Each size that was given is within its limits.
    pub fn fit(self) -> bool
        ensures { result ≡ sizes_fit self }
    {
        Size::Stack.fits_if_given(self.stack)
            && Size::Extra.fits_if_given(self.extra)
            && Size::Print.fits_if_given(self.print)
    }

    /// A size, if it was given.
    fn get(self, size: Size) -> Option<u64>
        ensures { result ≡ size_in size self }
    {
        match size {
            Size::Stack => self.stack,
            Size::Extra => self.extra,
            Size::Print => self.print,
        }
    }

    /// A size, given or not.
    pub fn value(self, size: Size) -> u64
        ensures { result ≡ size_of size self }
    {
        self.get(size).unwrap_or(default_size(size))
    }

    /// With one size more.
    fn with(self, size: Size, number: u64) -> Sizes
        ensures { result ≡ with_size size number self }
    {
        match size {
            Size::Stack => Sizes {
                stack: Some(number),
                ..self
            },
            Size::Extra => Sizes {
                extra: Some(number),
                ..self
            },
            Size::Print => Sizes {
                print: Some(number),
                ..self
            },
        }
    }

    /// With the number that stands behind a key, where there is one and that size was not given before.
    fn given_once(self, size: Size, number: Option<u64>) -> Option<Sizes>
        ensures { result ≡ given_once size (size_in size self) number self }
    {
        match (self.get(size), number) {
            (None, Some(n)) => Some(self.with(size, n)),
            _ => None,
        }
    }

    /// With the number of the digits that stand behind a key.
    fn given(self, size: Size, digits: &[u8]) -> Option<Sizes>
        ensures { result ≡ given_once size (size_in size self) (number_in digits.now) self }
    {
        self.given_once(size, number(digits))
    }

    /// With the size that an option gives: the table of options.
    #[tactic(auto, unfolding(crate::specs::Sizes::option))]
    fn with_option(self, word: &[u8]) -> Option<Sizes>
        ensures { result ≡ option word.now self }
    {
        if let Some(digits) = behind(Size::Stack, word) {
            self.given(Size::Stack, digits)
        } else if let Some(digits) = behind(Size::Extra, word) {
            self.given(Size::Extra, digits)
        } else if let Some(digits) = behind(Size::Print, word) {
            self.given(Size::Print, digits)
        } else {
            None
        }
    }

    /// With the sizes that options give, in any order.
    #[tactic(auto, using(crate::proofs::OptionLemmas::options_turns))]
    pub(crate) fn with_options(self, words: &[&[u8]]) -> Option<Sizes>
        ensures { result ≡ options self (map (λ w. w.now) words.now) }
    {
        let mut sizes = self;
        for word in words {
            sizes = sizes.with_option(word)?;
        }
        Some(sizes)
    }
}
