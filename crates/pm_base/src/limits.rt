//! The limits of the market as constants, such as the most nodes and the window, for every crate.

ghost use Rattle.std.specs.Prelude.{◌≡◌, pos};
ghost use Rattle.pm_base.specs.Limits.{least_steps, most_steps, most_nodes, most_depth, window_size, price_limit, demand_limit, sum_limit, most_phases};
ghost use Rattle.pm_base.specs.Limits.{most_events, most_changes};

/// The least number of steps of a market basis.
pub const LEAST_STEPS: usize = 2;

/// The most steps of a market basis.
pub const MOST_STEPS: usize = 1000;

/// The most nodes of a cluster, the auctioneer not counted.
pub const MOST_NODES: usize = 256;

/// The most concentrators on a path from a node to the auctioneer, the node included.
pub const MOST_DEPTH: u32 = 6;

/// The most numbers of a concentrator that no price has answered.
pub const WINDOW_SIZE: u32 = 8;

/// The largest absolute value of a price, in price units.
pub const PRICE_LIMIT: i64 = 1_000_000_000;

/// The largest absolute value of one demand, in watts.
pub const DEMAND_LIMIT: i64 = 1_000_000_000;

/// The largest absolute value of a sum of demands, in watts: one demand for each node.
pub const SUM_LIMIT: i64 = 256_000_000_000;

/// The most phases of a run.
pub const MOST_PHASES: usize = 1000;

/// The most events of a phase.
pub const MOST_EVENTS: usize = 4096;

/// The most changes of a run.
pub const MOST_CHANGES: usize = 20_000;

/// The least and the greatest power of a part of the cluster, in watts, in the manner of peak shaving.
#[derive(Clone, Copy, Debug, PartialEq, Eq)]
pub struct Limits {
    /// The least power, which is not positive: as much as the part may deliver.
    pub floor: i64,
    /// The greatest power, which is not negative: as much as the part may take.
    pub ceiling: i64,
}

/// A law: the constants of the code are the limits that contracts speak of.
pub fn constants_are_the_limits()
    ensures least_steps { LEAST_STEPS ≡ least_steps }
    ensures most_steps { MOST_STEPS ≡ most_steps }
    ensures nodes { MOST_NODES ≡ most_nodes }
    ensures depth { MOST_DEPTH ≡ most_depth }
    ensures window { WINDOW_SIZE ≡ window_size }
    ensures price { PRICE_LIMIT ≡ pos price_limit }
    ensures demand { DEMAND_LIMIT ≡ pos demand_limit }
    ensures sum { SUM_LIMIT ≡ pos sum_limit }
    ensures phases { MOST_PHASES ≡ most_phases }
    ensures events { MOST_EVENTS ≡ most_events }
    ensures changes { MOST_CHANGES ≡ most_changes }
{}
