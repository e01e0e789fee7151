//! Bids of two and of ten steps for tests.

ghost use Rattle.std.specs.Prelude.{◌≡◌, length};
ghost use Rattle.pm_base.specs.Limits.{demand_limit};
ghost use Rattle.pm_bid.specs.Bids.{AllWithinLimit};

use pm_bid::{ArrayBid, uncounted};
use std::alloc::Global;
use std::process::Abort;

/// The bid of these demands at two steps.
pub(crate) fn bid_of<R: Abort>(rt: &R, alloc: Global, demands: [i64; 2]) -> ArrayBid
    ensures steps { length result ≡ 2 }
    ensures small { AllWithinLimit demand_limit result }
{
    let demands = demands.to_vec(alloc).expect(rt, "memory");
    ArrayBid::new(demands, 2, &mut uncounted()).expect(rt, "a bid")
}

/// The bid of these demands at ten steps.
pub(crate) fn long_bid_of<R: Abort>(rt: &R, alloc: Global, demands: &[i64]) -> ArrayBid
    requires { length demands.now ≡ 10 }
    ensures steps { length result ≡ 10 }
    ensures small { AllWithinLimit demand_limit result }
{
    let demands = demands.to_vec(alloc).expect(rt, "memory");
    ArrayBid::new(demands, 10, &mut uncounted()).expect(rt, "a bid")
}
