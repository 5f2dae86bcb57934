//! What all routes are: the numbers in them are in their types' ranges. Each function here reads what it is handed, so
//! that contracts know of it, and does nothing.
ghost use Rattle.std.specs.List.{AllByRecursion};
ghost use Rattle.std.specs.Prelude.{◌≡◌, ◌≤◌, ◌<◌, ◌^◌, IfSome};
ghost use Rattle.route_values.specs.Addr.{family_of, bits_of, number_of};
ghost use Rattle.route_values.specs.Limits.{counts_written, IsWithinLimits};
ghost use Rattle.route_values.specs.Path.{AllFilled};
ghost use Rattle.route_values.specs.Sent.{hop_sent, sent};
ghost use Rattle.route_values.specs.Settings.{side_of};
ghost use Rattle.route_values.specs.declared.addr.Family.{Family};
ghost use Rattle.update_grammar.specs.Values.{IsAggregator, IsExt, IsLarge, IsNumber};
ghost use Rattle.batch_cutter.specs.Heads.{IsRoute};
ghost use Rattle.config_model.specs.Drafts as config;
ghost use Rattle.peer_book.specs.Known.{AreNumbers, IsHopKnown, IsPathKnown};
ghost use Rattle.peer_book.specs.Statics.{AreRoutes};

use config_model::StaticRoute;
use route_values::{Addr, Aggregator, AsPath, Attrs, Hop, Large, Segment, Settings, Side};

/// Static routes of a section that is within its limits can be put into a table. Nothing is done.
pub fn known_statics(settings: &Settings, statics: &[StaticRoute])
    ensures { AllByRecursion (config.IsRoute settings.now) statics.now
        → AreRoutes (side_of settings.now) statics.now }
{
    let side = settings.side();
    'routes: for route in statics {
        known_route(&side, &route.attrs);
    }
}

/// Attributes within the limits are a route of the family of the next hop that they are sent with. Nothing is done.
pub fn known_route(side: &Side, written: &Attrs)
    ensures { (family : Family) → family_of (hop_sent written.now.hop side.now) ≡ family
        → IsWithinLimits (counts_written written.now)
        → IsRoute family (sent written.now side.now) }
{
    known_side(side);
    known_hop(written.hop);
    known_path(&written.path);
    known_if(written.med);
    known_if(written.local_pref);
    known_aggregator(written.aggregator);
    known_numbers(written.communities.as_slice());
    known_if(written.originator);
    known_numbers(written.clusters.as_slice());
    known_exts(written.extended.as_slice());
    known_larges(written.large.as_slice());
}

/// What every side is.
pub fn known_side(side: &Side)
    ensures local_as { IsNumber side.now.local_as }
    ensures local { number_of side.now.local < 2 ^ bits_of (family_of side.now.local) }
{
    known_number(side.local_as);
    known_addr(side.local);
}

/// What every LOCAL_PREF, and each other value that may be written, is.
pub fn known_if(number: Option<u32>)
    ensures { IfSome number IsNumber }
{
    match number {
        Some(number) => known_number(number),
        None => {}
    }
}

fn known_number(number: u32)
    ensures { IsNumber number }
{
    let _number = number;
}

fn known_addr(addr: Addr)
    ensures { number_of addr < 2 ^ bits_of (family_of addr) }
{
    match addr {
        Addr::V4(_number) => {}
        Addr::V6(_number) => {}
    }
}

fn known_hop(hop: Hop)
    ensures { IsHopKnown hop }
{
    match hop {
        Hop::Own => {}
        Hop::Is(addr) => known_addr(addr),
    }
}

fn known_aggregator(aggregator: Option<Aggregator>)
    ensures { IfSome aggregator IsAggregator }
{
    match aggregator {
        Some(aggregator) => {
            known_number(aggregator.asn);
            known_number(aggregator.addr);
        }
        None => {}
    }
}

fn known_path(path: &Option<AsPath>)
    ensures { IsPathKnown path.now }
{
    match path {
        Some(path) => known_segments(path.segments()),
        None => {}
    }
}

fn known_segments(segments: &[Segment])
    ensures { AllByRecursion (λ segment. AreNumbers segment.numbers) segments.now }
{
    'segments: for segment in segments {
        known_numbers(segment.numbers.as_slice());
    }
}

fn known_numbers(numbers: &[u32])
    ensures { AreNumbers numbers.now }
{
    'numbers: for number in numbers {
        known_number(*number);
    }
}

fn known_exts(exts: &[[u8; 8]])
    ensures { AllByRecursion IsExt exts.now }
{
    'exts: for ext in exts {
        known_ext(ext);
    }
}

fn known_ext(ext: &[u8; 8])
    ensures { IsExt ext.now }
{
    let _len = ext.len();
}

fn known_larges(larges: &[Large])
    ensures { AllByRecursion IsLarge larges.now }
{
    'larges: for large in larges {
        known_large(large);
    }
}

fn known_large(large: &Large)
    ensures { IsLarge large.now }
{
    known_number(large.global);
    known_number(large.first);
    known_number(large.second);
}
