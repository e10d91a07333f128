//! A store can't grow, so it gets as many slots as version 2 may have unless the caller asks otherwise: the file then has 4 MB. Two places
//! are enough for the ruling record and the next one. With the largest window a commit seldom waits for timestamps.

ghost use Rattle.std.specs.Prelude.{◌≡◌};
ghost use Rattle.base.specs.Layout.{layout_with, plain_version};

use base::geometry::Geometry;

/// The layout of a store if the caller asks for no other: 65,536 slots of one line, 2 places for records, and a window of 1,024
/// timestamps.
#[tactic(auto, unfolding(base::specs::Layout::is_known_version, base::specs::Layout::most_slots))]
pub fn standard_layout() -> Geometry
    ensures { result ≡ layout_with plain_version 65536 2 1024 }
{
    match Geometry::new(65_536, 2, 1_024) {
        Ok(geometry) => geometry,
        Err(_) => unreachable!(),
    }
}
