//! The table of DEFINEs.
ghost use Rattle.std.specs.Prelude.{◌≡◌, ◌++◌, ◌∷◌, [], None, map, option_map, OnOk};
ghost use Rattle.spl_cuts.specs.Defines as df;
ghost use Rattle.spl_pieces.specs.SignViews.{sign_of};

use arrayvec::ArrayVec;
use indexmap::IndexMap;
use spl_tree::{Name, What};
use std::alloc::{AllocError, Global};
use std::marker::Model;

/// The DEFINEs so far, in the order of the source: each name with the tokens that it stands for.
#[derive(Debug, Drop)]
pub struct Defines {
    table: IndexMap<ArrayVec<u8, 15>, Vec<What>>,
}

impl Model for Defines {
    ghost use Rattle.std.specs.Prelude.{List, map};
    ghost use Rattle.spl_cuts.specs.Defines.{Define};
    ghost use Rattle.spl_lexer.specs.DefineViews.{define_of};

    ghost Value = { List Define };

    ghost view = { λ d. map define_of d.table.entries };
}

impl Defines {
    /// No DEFINE.
    pub fn new(alloc: Global) -> Self
        ensures { result ≡ [] }
    {
        Defines {
            table: IndexMap::new(alloc),
        }
    }

    /// What a name stands for, if it is defined.
    pub fn get(&self, name: &Name) -> Option<&Vec<What>>
        ensures { option_map (λ v. map sign_of v.now.items) result ≡ df.defined name.now.text.items self.now }
    {
        self.table.get(&name.text)
    }

    /// What a token stands for, if it is a word that is defined.
    pub fn use_of(&self, what: &What) -> Option<&Vec<What>>
        ensures { option_map (λ v. map sign_of v.now.items) result ≡ df.use_of self.now (sign_of what.now) }
    {
        match what {
            What::Word(name) => self.get(name),
            _ => None,
        }
    }

    /// Defines a name that is not defined. Where memory is wanting, the DEFINEs stay.
    pub fn add(&mut self, name: Name, signs: Vec<What>) -> Result<(), AllocError>
        requires { df.defined name.text.items self.old ≡ None }
        ensures { OnOk result (self.new ≡ self.old ++ record { name = name.text.items; signs = map sign_of signs.items } ∷ []) }
    {
        self.table.insert(name.text, signs)?;
        Ok(())
    }
}
