// What the placement's open block still takes, and how many blocks more a write opens.
ghost use Rattle.std.specs.Prelude.{true, ◌≡◌, ◌-◌, ◌≤◌};
ghost use Rattle.geometry.specs.Shape.{within_limits};
ghost use Rattle.placements.specs.Onwards.{blocks_in};
ghost use Rattle.placements.specs.Placing.{room_seen};

use geometry::{Adus, Config, adus_per_block};
use scan::Summary;

// What is left of a number of ADUs without so many.
pub(crate) fn without(count: Adus, some: Adus) -> Adus
    ensures { result.0 ≡ count.0 - some.0 }
{
    Adus(count.0.saturating_sub(some.0))
}

// The ADUs that the placement's open block still takes; none where it has none.
pub(crate) fn room_in(summary: Summary) -> Adus
    requires { within_limits summary.config ≡ true }
    ensures { result.0 ≡ room_seen summary }
{
    match summary.found {
        None => Adus(0),
        Some(_) => without(adus_per_block(summary.config), summary.block.written),
    }
}

// The blocks that so many ADUs fill or begin.
pub(crate) fn blocks_for(config: Config, count: Adus) -> u64
    requires config_value { within_limits config ≡ true }
    requires count_bound { count.0 ≤ 256 }
    ensures { (result ≡ blocks_in config count.0) × (result ≤ 256) }
{
    let capacity = adus_per_block(config);
    (count.0 + (capacity.0 - 1)) / capacity.0
}
