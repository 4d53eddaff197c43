// How many updates lie between two serials of one entry.
#![tactic(auto)]

ghost use Rattle.std.specs.Prelude.{◌≡◌};
ghost use Rattle.counters.specs.Distance.{distance};

use serials::{POSITIONS, position_of};

// The update distance from an earlier serial to a later one.
pub fn update_distance(earlier: u32, later: u32) -> u32
    ensures { result ≡ distance earlier later }
{
    position_of(later).wrapping_sub(position_of(earlier)) % POSITIONS
}
