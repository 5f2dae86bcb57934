//! What is known of the routes of a configuration: nothing here changes or answers anything.
ghost use Rattle.std.specs.List.{AllByRecursion};
ghost use Rattle.std.specs.Prelude.{IfSome};
ghost use Rattle.route_values.specs.Key.{family_of_key};
ghost use Rattle.route_values.specs.Sent.{sent};
ghost use Rattle.route_values.specs.Settings.{side_of};
ghost use Rattle.update_grammar.specs.Values.{IsAggregator, IsNumber, IsExt, IsLarge};
ghost use Rattle.config_model.specs.Drafts.{IsNeighbor, IsRoute};
ghost use Rattle.batch_cutter.specs.Heads.{IsRoute as IsSent};
ghost use Rattle.peer_book.specs.Statics.{AreRoutes};
ghost use Rattle.book_core.specs.Changing.{IsSection};
ghost use Rattle.book_core.specs.Routes.{AreSegments, IsAddr, IsAttrs, IsHopWritten};

use config_model::{Neighbor, StaticRoute};
use route_values::{Addr, Aggregator, AsPath, Attrs, Hop, Large, Segment, Settings};

/// The sections of a configuration are sections whose static routes can be announced.
pub fn known_sections(sections: &[Neighbor])
    requires { AllByRecursion IsNeighbor sections.now }
    ensures { AllByRecursion IsSection sections.now }
{
    'sections: for section in sections {
        known_section(section);
    }
}

fn known_section(section: &Neighbor)
    requires { IsNeighbor section.now }
    ensures { IsSection section.now }
{
    known_statics(&section.settings, section.statics.as_slice());
}

fn known_statics(settings: &Settings, statics: &[StaticRoute])
    requires { AllByRecursion (IsRoute settings.now) statics.now }
    ensures { AreRoutes (side_of settings.now) statics.now }
{
    'statics: for route in statics {
        known_static(settings, route);
    }
}

fn known_static(settings: &Settings, route: &StaticRoute)
    requires { IsRoute settings.now route.now }
    ensures { IsSent (family_of_key route.now.key) (sent route.now.attrs (side_of settings.now)) }
{
    let _local_as = settings.local_as;
    known_addr(settings.local);
    known_attrs(&route.attrs);
}

/// What all attributes that were written are: their numbers are in range, and no segment is empty.
pub fn known_attrs(attrs: &Attrs)
    ensures { IsAttrs attrs.now }
{
    known_hop(attrs.hop);
    known_path(&attrs.path);
    known_optional(attrs.med);
    known_optional(attrs.local_pref);
    known_aggregator(attrs.aggregator);
    known_numbers(attrs.communities.as_slice());
    known_optional(attrs.originator);
    known_numbers(attrs.clusters.as_slice());
    known_exts(attrs.extended.as_slice());
    known_larges(attrs.large.as_slice());
}

fn known_hop(hop: Hop)
    ensures { IsHopWritten hop }
{
    match hop {
        Hop::Own => {}
        Hop::Is(addr) => known_addr(addr),
    }
}

fn known_addr(addr: Addr)
    ensures { IsAddr addr }
{
    match addr {
        Addr::V4(_number) => {}
        Addr::V6(_number) => {}
    }
}

fn known_path(path: &Option<AsPath>)
    ensures { IfSome path.now AreSegments }
{
    match path {
        Some(path) => known_segments(path),
        None => {}
    }
}

fn known_segments(path: &AsPath)
    ensures { AreSegments path.now }
{
    let segments = path.segments();
    'segments: for segment in segments {
        known_segment(segment);
    }
}

fn known_segment(segment: &Segment)
    ensures { AllByRecursion IsNumber segment.now.numbers }
{
    known_numbers(segment.numbers.as_slice());
}

fn known_numbers(numbers: &[u32])
    ensures { AllByRecursion IsNumber numbers.now }
{
    'numbers: for number in numbers {
        known_number(*number);
    }
}

fn known_optional(number: Option<u32>)
    ensures { IfSome number IsNumber }
{
    match number {
        Some(number) => known_number(number),
        None => {}
    }
}

fn known_number(number: u32)
    ensures { IsNumber number }
{
    let _number = number;
}

fn known_aggregator(aggregator: Option<Aggregator>)
    ensures { IfSome aggregator IsAggregator }
{
    match aggregator {
        Some(aggregator) => {
            known_number(aggregator.asn);
            known_number(aggregator.addr);
        }
        None => {}
    }
}

fn known_exts(exts: &[[u8; 8]])
    ensures { AllByRecursion IsExt exts.now }
{
    'exts: for ext in exts {
        known_ext(ext);
    }
}

fn known_ext(ext: &[u8; 8])
    ensures { IsExt ext.now }
{
    let _first = ext[0];
}

fn known_larges(larges: &[Large])
    ensures { AllByRecursion IsLarge larges.now }
{
    'larges: for large in larges {
        known_large(large);
    }
}

fn known_large(large: &Large)
    ensures { IsLarge large.now }
{
    known_number(large.global);
    known_number(large.first);
    known_number(large.second);
}
