//! Sums of words that may pass a limit.
ghost use Rattle.std.specs.Prelude.{◌≡◌, OnOk, IfOk, map, false};
ghost use Rattle.spl_sorts.specs.spl_meaning.Places as places;
ghost use Rattle.spl_sorts.specs.Sorts.{sort_of};
ghost use Rattle.spl_places.specs.ListedData.{datum_of};
ghost use Rattle.spl_places.specs.Counters.{part_words, sizes, total_words, behind_words, found_words, behind, found};

use crate::data::Datum;
use crate::words::{array_words, is_own, item_words};
use spl_sorts::Sort;
use spl_spots::{FirstFull, Full, plus};
use spl_tree::At;
use std::alloc::AllocError;

/// Which words of an item are meant: its own, or those of its array's data.
#[derive(Clone, Copy, Debug)]
pub enum Part {
    Items,
    Arrays,
}

/// The words of an item, where it is OWN as is asked.
pub fn counted_words(part: Part, own: bool, sort: &Sort) -> Result<u64, AllocError>
    ensures { IfOk result (λ words. words ≡ places.where_own own (part_words part) (sort_of sort.now)) }
{
    if is_own(sort) != own {
        return Ok(0);
    }
    match part {
        Part::Items => Ok(item_words(sort)),
        Part::Arrays => array_words(sort),
    }
}

/// A sum of words of items in order, which may pass the most that a limit allows.
#[derive(Clone, Copy, Debug)]
pub struct Counter {
    pub limit: u8,
    pub most: u64,
    /// The sum so far, or where it first passed the limit.
    pub count: u64,
    pub passed: bool,
}

impl Counter {
    /// A sum that has come so far.
    pub fn new(limit: u8, most: u64, count: u64) -> Counter
        ensures { result ≡ record { limit = limit; most = most; count = count; passed = false } }
    {
        Counter {
            limit,
            most,
            count,
            passed: false,
        }
    }

    /// Words more. An error is as in `plus`.
    #[tactic(auto, unfolding(crate::specs::Counters::behind_words, crate::specs::Counters::found_words))]
    fn add(&mut self, at: At, words: u64, first: &mut FirstFull) -> Result<(), AllocError>
        ensures sum { OnOk result (self.new ≡ behind_words self.old words) }
        ensures first { OnOk result (first.new ≡ found_words self.old at words first.old) }
    {
        if !self.passed && 0 < words {
            self.count = plus(self.count, words)?;
            if self.most < self.count {
                self.passed = true;
                first.note(Full {
                    limit: self.limit,
                    at,
                    count: self.count,
                });
            }
        }
        Ok(())
    }

    /// The words of items in order, where they are OWN or where they are not. An error is as in `plus`.
    #[tactic(auto, using(crate::proofs::CounterWalks::counter_steps))]
    pub fn add_all(
        &mut self,
        part: Part,
        own: bool,
        list: &[Datum],
        first: &mut FirstFull,
    ) -> Result<(), AllocError>
        ensures sum { OnOk result (self.new ≡ behind self.old (sizes own (part_words part) (map datum_of list.now))) }
        ensures first { OnOk result (first.new ≡ found self.old (sizes own (part_words part) (map datum_of list.now)) first.old) }
    {
        for datum in list {
            let words = counted_words(part, own, &datum.sort)?;
            self.add(datum.at, words, first)?;
        }
        Ok(())
    }
}

/// The words of items that are OWN, or of those that are not. An error is as in `plus`.
#[tactic(auto, using(crate::proofs::CounterWalks::total_steps))]
pub fn total(part: Part, own: bool, list: &[Datum]) -> Result<u64, AllocError>
    ensures { IfOk result (λ total. total ≡ total_words own (part_words part) (map datum_of list.now)) }
{
    let mut total = 0;
    for datum in list {
        total = plus(total, counted_words(part, own, &datum.sort)?)?;
    }
    Ok(total)
}
