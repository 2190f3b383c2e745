//! A random history of calls, beside the same calls of a plain form.

use mpe_regions::{Region, Regions};
use std::alloc::AllocError;
use std::process::Abort;
use std::test::Fail;

/// The plain form: regions in order of place, and their keys in order of use.
#[derive(Drop)]
struct Plain {
    size: u32,
    list: Vec<Region>,
    order: Vec<u32>,
}

impl Plain {
    fn region(&self, key: u32) -> Option<Region> {
        for r in &self.list {
            if r.key == key {
                return Some(*r);
            }
        }
        None
    }

    fn hole(&self, want: u16) -> Option<u32> {
        let want = want as u32;
        let mut from: u32 = 0;
        for r in &self.list {
            if from.saturating_add(want) <= r.place {
                return Some(from);
            }
            from = r.place.saturating_add(r.size as u32);
        }
        if from.saturating_add(want) <= self.size {
            Some(from)
        } else {
            None
        }
    }

    fn take(&mut self, key: u32, size: u16) -> Result<Option<u32>, AllocError> {
        match self.hole(size) {
            None => Ok(None),
            Some(place) => {
                self.list.push(Region { key, place, size })?;
                self.list.sort_by_key(|r| r.place)?;
                self.order.push(key)?;
                Ok(Some(place))
            }
        }
    }

    fn give(&mut self, key: u32) -> bool {
        let live = self.region(key).is_some();
        self.list.retain(|r| r.key != key);
        self.order.retain(|k| *k != key);
        live
    }

    fn touch(&mut self, key: u32) -> Result<bool, AllocError> {
        if self.region(key).is_none() {
            return Ok(false);
        }
        self.order.retain(|k| *k != key);
        self.order.push(key)?;
        Ok(true)
    }
}

/// The next random number.
fn draw(x: &mut u32) -> u32 {
    *x = x.wrapping_mul(1_103_515_245).wrapping_add(12_345);
    *x >> 16
}

/// Whether both answer the next call alike. A table that is full or has no hole gives its oldest region.
fn call(regions: &mut Regions, plain: &mut Plain, x: &mut u32) -> Result<bool, AllocError> {
    let key = draw(x) % 60;
    let size = (draw(x) % 60) as u16 + 1;
    let what = draw(x) % 8;
    let alike = if what < 4 && !regions.is_full() && regions.region(key).is_none() {
        regions.take(key, size) == plain.take(key, size)?
    } else if what < 4 {
        match regions.oldest() {
            Some(oldest) => regions.give(oldest) == plain.give(oldest),
            None => true,
        }
    } else if what == 4 {
        regions.give(key) == plain.give(key)
    } else {
        regions.touch(key) == plain.touch(key)?
    };
    Ok(
        alike
            && regions.region(key) == plain.region(key)
            && regions.oldest() == plain.order.first().copied(),
    )
}

fn lie_alike(regions: &Regions, plain: &Plain) -> bool {
    for key in 0..60 {
        if regions.region(key) != plain.region(key) {
            return false;
        }
    }
    true
}

fn play(rt: &impl Abort, regions: &mut Regions, plain: &mut Plain) -> Result<(), Fail> {
    let mut x: u32 = 2_026;
    for i in 0..3_000 {
        let alike = call(regions, plain, &mut x)?;
        assert!(rt;
            alike && (i % 50 > 0 || lie_alike(regions, plain)),
            "call {i}"
        );
    }
    Ok(())
}

#[test]
fn three_thousand_calls_beside_the_plain_form(rt: HostRuntime) -> Result<(), Fail> {
    let alloc = rt.alloc();
    let mut regions = Regions::make(alloc, 1_000, 40)?;
    let mut plain = Plain {
        size: 1_000,
        list: Vec::new(alloc),
        order: Vec::new(alloc),
    };
    play(&rt, &mut regions, &mut plain)
}
