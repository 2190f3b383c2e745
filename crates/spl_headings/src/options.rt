//! The options of a procedure.
ghost use Rattle.std.specs.Prelude.{◌≡◌, option_map};
ghost use Rattle.spl_tree.specs.Declarations as dl;
ghost use Rattle.spl_reading.specs.Readers as readers;
ghost use Rattle.spl_reading.specs.ReadDeclarations as spec;
ghost use Rattle.spl_tokens.specs.Reads.{Reads, paired};
ghost use Rattle.spl_headings.specs.Headings as headings;

use spl_tokens::{Fault, Tokens, is_word, same};
use spl_tree::Symbol;

/// The options of a procedure: FORWARD, EXTERNAL and SPLIT.
#[derive(Clone, Copy, Debug, PartialEq, Eq)]
pub struct Options {
    pub forward: bool,
    pub external: bool,
    pub split: bool,
}

/// No option.
pub const NO_OPTIONS: Options = Options {
    forward: false,
    external: false,
    split: false,
};

/// The option with these letters.
#[tactic(auto, unfolding(spl_tree::specs::Declarations::option_of))]
fn option_of(letters: &[u8]) -> Option<Options>
    ensures { option_map headings.options result ≡ dl.option_of letters.now }
{
    if is_word(letters, b"FORWARD") {
        Some(Options {
            forward: true,
            external: false,
            split: false,
        })
    } else if is_word(letters, b"EXTERNAL") {
        Some(Options {
            forward: false,
            external: true,
            split: false,
        })
    } else if is_word(letters, b"SPLIT") {
        Some(Options {
            forward: false,
            external: false,
            split: true,
        })
    } else {
        None
    }
}

/// The options of both.
fn both(a: Options, b: Options) -> Options
    ensures { headings.options result ≡ dl.both (headings.options a) (headings.options b) }
{
    Options {
        forward: a.forward || b.forward,
        external: a.external || b.external,
        split: a.split || b.split,
    }
}

/// An option that fits these.
#[tactic(auto, using(spl_tokens::proofs::Steps::steps), unfolding(spl_reading::specs::Readers::pure, spl_reading::specs::Readers::refuse, spl_reading::specs::Readers::followed, spl_reading::specs::Readers::and_then, spl_reading::specs::ReadDeclarations::option_among))]
fn among(
    tokens: &mut Tokens<'_>,
    options: Options,
    option: Option<Options>,
) -> Result<Options, Fault>
    ensures { Reads headings.options (spec.option_among (headings.options options) (option_map headings.options option) tokens.old) result tokens.new }
{
    match option {
        None => Err(Fault::Syntax),
        Some(option) => {
            let all = both(options, option);
            if all.forward && all.external {
                Err(Fault::Syntax)
            } else {
                tokens.take()?;
                Ok(all)
            }
        }
    }
}

/// An option behind these.
#[tactic(auto, using(spl_tokens::proofs::Steps::steps, crate::proofs::OptionLemmas::options), unfolding(spl_reading::specs::Readers::pure, spl_reading::specs::Readers::refuse, spl_reading::specs::Readers::followed, spl_reading::specs::Readers::and_then))]
fn option(tokens: &mut Tokens<'_>, options: Options) -> Result<Options, Fault>
    ensures { Reads headings.options (spec.option_behind (headings.options options) tokens.old) result tokens.new }
{
    let option = option_of(tokens.next_name()?);
    among(tokens, options, option)
}

/// A further option, and whether another may follow.
#[tactic(auto, using(spl_tokens::proofs::Steps::steps), unfolding(spl_reading::specs::Readers::pure, spl_reading::specs::Readers::refuse, spl_reading::specs::Readers::followed, spl_reading::specs::Readers::and_then, spl_reading::specs::ReadDeclarations::more_options))]
fn further(tokens: &mut Tokens<'_>, options: Options) -> Result<(bool, Options), Fault>
    ensures { Reads (paired headings.options) (spec.more_options (headings.options options) tokens.old) result tokens.new }
{
    if same(tokens.peek()?, Symbol::Comma) {
        tokens.take()?;
        Ok((true, option(tokens, options)?))
    } else {
        Ok((false, options))
    }
}

/// The further options.
#[tactic(auto, using(spl_tokens::proofs::Steps::steps, spl_tokens::proofs::Turns::loops), unfolding(spl_reading::specs::Readers::pure, spl_reading::specs::Readers::refuse, spl_reading::specs::Readers::followed, spl_reading::specs::Readers::and_then))]
fn more(tokens: &mut Tokens<'_>, options: Options) -> Result<Options, Fault>
    ensures { Reads headings.options (readers.repeat spec.more_options (headings.options options) tokens.old) result tokens.new }
{
    let mut options = options;
    for _turn in 0..tokens.left() + 1 {
        let (more, next) = further(tokens, options)?;
        if !more {
            return Ok(next);
        }
        options = next;
    }
    Err(Fault::Syntax)
}

/// Options, parted by commas.
#[tactic(auto, using(spl_tokens::proofs::Steps::steps), unfolding(spl_reading::specs::Readers::pure, spl_reading::specs::Readers::refuse, spl_reading::specs::Readers::followed, spl_reading::specs::Readers::and_then, spl_reading::specs::ReadDeclarations::options))]
pub fn option_list(tokens: &mut Tokens<'_>) -> Result<Options, Fault>
    ensures { Reads headings.options (spec.options tokens.old) result tokens.new }
{
    let first = option(tokens, NO_OPTIONS)?;
    more(tokens, first)
}
