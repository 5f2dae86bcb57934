//! Tables without a route.
ghost use Rattle.std.specs.Prelude.{◌≡◌};
ghost use Rattle.adj_rib_out.specs.Calls.{empty};

use adj_rib_out::Rib;
use route_values::Side;
use std::alloc::Global;
use std::hash::RandomState;

/// The empty table of a neighbour at which no session stands. It takes no memory.
pub fn empty_table(alloc: Global, side: Side, hasher: RandomState) -> Rib
    ensures { result ≡ empty side }
{
    Rib::new(alloc, side, hasher)
}
