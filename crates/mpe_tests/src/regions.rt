//! Calls on tables of regions, with places and orders worked by hand.

use mpe_regions::Regions;
use std::process::Abort;
use std::test::Fail;

/// A call with the answer that it has to give.
enum Call {
    Take(u32, u16, Option<u32>),
    Give(u32, bool),
    Touch(u32, bool),
    Oldest(Option<u32>),
    Lies(u32, Option<u32>, Option<u16>),
}

use Call::{Give, Lies, Oldest, Take, Touch};

/// Whether a call gives its answer. One takes a region only of a new key, where the table has room.
fn answers(regions: &mut Regions, call: &Call) -> bool {
    match call {
        Take(key, size, wanted) => {
            regions.region(*key).is_none()
                && !regions.is_full()
                && 0 < *size
                && regions.take(*key, *size) == *wanted
        }
        Give(key, wanted) => regions.give(*key) == *wanted,
        Touch(key, wanted) => regions.touch(*key) == *wanted,
        Oldest(wanted) => regions.oldest() == *wanted,
        Lies(key, place, length) => {
            regions.place(*key) == *place && regions.length(*key) == *length
        }
    }
}

fn all_answer(rt: &impl Abort, regions: &mut Regions, calls: &[Call]) {
    for (number, call) in calls.iter().enumerate() {
        assert!(rt; answers(regions, call), "call {number}");
    }
}

static THREE: [Call; 16] = [
    Oldest(None),
    Take(1, 40, Some(0)),
    Take(2, 40, Some(40)),
    Take(3, 30, None),
    Touch(1, true),
    Oldest(Some(2)),
    Give(2, true),
    Take(3, 30, Some(40)),
    Take(4, 30, Some(70)),
    Oldest(Some(1)),
    Lies(1, Some(0), Some(40)),
    Lies(2, None, None),
    Lies(4, Some(70), Some(30)),
    Give(2, false),
    Touch(2, false),
    Oldest(Some(1)),
];

#[test]
fn a_table_of_three_regions(rt: HostRuntime) -> Result<(), Fail> {
    let mut regions = Regions::make(rt.alloc(), 100, 3)?;
    all_answer(&rt, &mut regions, &THREE);
    assert!(rt; regions.is_full());
    Ok(())
}

static HOLES: [Call; 14] = [
    Take(10, 10, Some(0)),
    Take(11, 20, Some(10)),
    Take(12, 10, Some(30)),
    Take(13, 20, Some(40)),
    Take(14, 1, None),
    Give(13, true),
    Give(11, true),
    Take(14, 20, Some(10)),
    Take(15, 20, Some(40)),
    Give(10, true),
    Take(16, 4, Some(0)),
    Take(17, 7, None),
    Take(18, 6, Some(4)),
    Oldest(Some(12)),
];

#[test]
fn the_lowest_hole_is_taken_first(rt: HostRuntime) -> Result<(), Fail> {
    let mut regions = Regions::make(rt.alloc(), 60, 8)?;
    all_answer(&rt, &mut regions, &HOLES);
    Ok(())
}
