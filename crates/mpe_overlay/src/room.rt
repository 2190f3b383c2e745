//! How a hole comes about: segments are given up until one is large enough.
ghost use Rattle.std.specs.Prelude.{◌≡◌, ◌<◌, ◌≤◌, Some, length};
ghost use Rattle.mpe_regions.specs.Area.{IsAbsent};
ghost use Rattle.mpe_regions.specs.Loads.{load};

use mpe_regions::Regions;

/// Takes a hole for a new key, and gives up the segments used longest ago until there is one. Answers its place in the
/// area and how many were given up.
pub fn make_room(regions: &mut Regions, key: u32, size: u16) -> (u32, u16)
    requires fresh { IsAbsent key regions.old.area }
    requires some { 0 < size }
    requires fits { size ≤ regions.old.area.size }
    requires room { regions.old.room ≡ 4096 }
    requires free { length regions.old.area.list < 4096 }
    ensures area { regions.new.area ≡ (load key size regions.old.area).area }
    ensures place { (load key size regions.old.area).place ≡ Some result.0 }
    ensures given_up { (load key size regions.old.area).given_up ≡ result.1 }
    ensures room { regions.new.room ≡ 4096 }
{
    let mut given_up: u16 = 0;
    loop {
        if let Some(place) = regions.take(key, size) {
            return (place, given_up);
        }
        match regions.oldest() {
            Some(oldest) => {
                regions.give(oldest);
            }
            None => unreachable!(),
        }
        given_up += 1;
    }
}
