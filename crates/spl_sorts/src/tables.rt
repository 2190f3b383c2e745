//! Lists of declarations, and what names stand for at a place.
ghost use Rattle.std.specs.Prelude.{◌≡◌, not, is_some, option_map, OnOk, IfOk, []};
ghost use Rattle.spl_tree.specs.Views.{letters};
ghost use Rattle.spl_meaning.specs.Names as n;
ghost use Rattle.spl_meaning.specs.Tables as t;
ghost use Rattle.spl_sorts.specs.Sorts.{sort_of};
ghost use Rattle.spl_sorts.specs.Tables.{table_of, names_of};

use crate::sorts::Sort;
use arrayvec::ArrayVec;
use indexmap::IndexMap;
use spl_tree::Name;
use std::alloc::{AllocError, Global};

/// A list of declarations: names with what they stand for, in order.
#[derive(Debug, Drop)]
pub struct Table {
    pub names: IndexMap<ArrayVec<u8, 15>, Sort>,
}

impl Table {
    /// No declaration.
    pub fn new(alloc: Global) -> Table
        ensures { table_of result ≡ [] }
    {
        Table {
            names: IndexMap::new(alloc),
        }
    }

    /// What a name stands for, if it is declared.
    pub fn find(&self, name: &Name) -> Option<&Sort>
        ensures { option_map (λ s. sort_of s.now) result ≡ n.find (table_of self.now) (letters name.now) }
    {
        self.names.get(&name.text)
    }

    /// Whether a name is declared.
    pub fn has(&self, name: &Name) -> bool
        ensures { result ≡ is_some (n.find (table_of self.now) (letters name.now)) }
    {
        self.names.contains_key(&name.text)
    }

    /// Declares a name, unless it is declared. Where memory is wanting, the list stays.
    pub fn declare(&mut self, name: &Name, sort: Sort) -> Result<(), AllocError>
        ensures { OnOk result (table_of self.new ≡ t.declared (table_of self.old) (letters name.now) (sort_of sort)) }
    {
        if !self.has(name) {
            self.names.insert(name.copy().text, sort)?;
        }
        Ok(())
    }
}

/// What names stand for at a place: a subroutine's parameters hide the list around it, and that hides the one outside.
#[derive(Clone, Copy, Debug)]
pub struct Names<'t> {
    pub inner: &'t Table,
    pub own: &'t Table,
    pub outer: &'t Table,
}

impl Names<'_> {
    /// What a name stands for, if it is declared.
    pub fn find(&self, name: &Name) -> Option<&Sort>
        ensures { option_map (λ s. sort_of s.now) result ≡ names_of self.now (letters name.now) }
    {
        match self.inner.find(name) {
            Some(sort) => Some(sort),
            None => match self.own.find(name) {
                Some(sort) => Some(sort),
                None => self.outer.find(name),
            },
        }
    }
}
