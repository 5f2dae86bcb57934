//! The section of a neighbour.
ghost use Rattle.std.specs.Prelude.{◌≡◌, is_some, IfOk};
ghost use Rattle.std.specs.List.{list_any};
ghost use Rattle.text_forms.specs.Families.{IsAddrText};
ghost use Rattle.config_model.specs.declared.fault.ConfigKind.TheVariants as kind;
ghost use Rattle.config_model.specs.Sections.{place_of_peer};
ghost use Rattle.config_reader.specs.Answered.{Answers};
ghost use Rattle.config_reader.specs.Rules.{where_so};
ghost use Rattle.config_reader.specs.Words.{word_or};
ghost use Rattle.config_reader.specs.Neighbors.{IsNeighborStatement, neighbor_has};
ghost use Rattle.config_reader.specs.Neighbors.{neighbor_unwritten, neighbor_statement};
ghost use Rattle.config_reader.specs.Neighbors.{neighbor_statements, neighbor_closed, neighbor_at};
ghost use Rattle.config_reader.specs.Neighbors.{is_own, is_family, is_foreign};
ghost use Rattle.config_reader.specs.Neighbors.{neighbor_wrong, neighbor_read};

use crate::fault::ConfigError;
use crate::first_words::NeighborWord;
use crate::keyed::KeyedStatics;
use crate::keywords::NeighborStatement;
use crate::names::names_of;
use crate::settings::settings_written;
use crate::spellings::AddrWord;
use crate::statements::neighbor_operand;
use crate::words::{fault, front_value, is_mark, sign, sign_or};
use crate::written::{NeighborRead, NeighborWritten};
use answers::NoMemory;
use config_model::{ConfigKind, Neighbor, Settings, StaticRoute, place_of_neighbor};
use route_values::{Addr, Family, Hop, Items};
use std::alloc::Global;
use token_reader::{FileTokens, Words};

/// The neighbour behind the word `neighbor`, whose address none of these has.
pub fn neighbor_at(
    alloc: Global,
    words: &mut FileTokens<'_>,
    before: &[Neighbor],
) -> Result<NeighborRead, ConfigError>
    ensures read { Answers (neighbor_at before.now) words.old.end words.old.left words.new.left
        result }
    ensures end { words.new.end ≡ words.old.end }
{
    let peer = peer_at(words, before)?;
    sign(words, b'{')?;
    let written = neighbor_statements(alloc, words, peer)?;
    neighbor_closed(alloc, words, peer, written)
}

// An address that none of these neighbours has.
fn peer_at(words: &mut FileTokens<'_>, before: &[Neighbor]) -> Result<Addr, ConfigError>
    ensures read { Answers
        (word_or IsAddrText (λ peer. where_so kind.Twice (is_some (place_of_peer before.now peer))))
        words.old.end words.old.left words.new.left result }
    ensures end { words.new.end ≡ words.old.end }
{
    let Some(peer) = front_value(words, &AddrWord) else {
        return Err(fault(words, ConfigKind::Token));
    };
    if place_of_neighbor(before, peer).is_some() {
        return Err(fault(words, ConfigKind::Twice));
    }
    words.advance();
    Ok(peer)
}

// Statements up to a closing brace.
fn neighbor_statements(
    alloc: Global,
    words: &mut FileTokens<'_>,
    peer: Addr,
) -> Result<NeighborWritten, ConfigError>
    ensures read { Answers (neighbor_statements peer) words.old.end words.old.left words.new.left
        result }
    ensures end { words.new.end ≡ words.old.end }
{
    let mut written = unwritten(alloc);
    'statements: while !is_mark(words, b'}') {
        written = neighbor_statement(alloc, words, peer, written)?;
    }
    Ok(written)
}

fn unwritten(alloc: Global) -> NeighborWritten
    ensures { result ≡ neighbor_unwritten }
{
    NeighborWritten {
        description: false,
        router_id: None,
        local: None,
        local_as: None,
        peer_as: None,
        hold: None,
        port: None,
        families: None,
        paths: None,
        capabilities: None,
        statics: KeyedStatics::new(alloc),
        heard: Items::new(alloc),
    }
}

// A statement besides those that are written.
fn neighbor_statement(
    alloc: Global,
    words: &mut FileTokens<'_>,
    peer: Addr,
    written: NeighborWritten,
) -> Result<NeighborWritten, ConfigError>
    ensures read { Answers (neighbor_statement peer written) words.old.end words.old.left
        words.new.left result }
    ensures end { words.new.end ≡ words.old.end }
{
    let which = statement_at(words, &written)?;
    neighbor_operand(alloc, words, peer, written, which)
}

// The first word of a statement that isn't written, or that may stand again.
fn statement_at(
    words: &mut FileTokens<'_>,
    written: &NeighborWritten,
) -> Result<NeighborStatement, ConfigError>
    ensures read { Answers
        (word_or IsNeighborStatement
        (λ which. where_so kind.Twice (neighbor_has written.now which)))
        words.old.end words.old.left words.new.left result }
    ensures end { words.new.end ≡ words.old.end }
{
    let Some(which) = front_value(words, &NeighborWord) else {
        return Err(fault(words, ConfigKind::Token));
    };
    if has(written, which) {
        return Err(fault(words, ConfigKind::Twice));
    }
    words.advance();
    Ok(which)
}

fn has(written: &NeighborWritten, which: NeighborStatement) -> bool
    ensures { result ≡ neighbor_has written.now which }
{
    match which {
        NeighborStatement::Description => written.description,
        NeighborStatement::RouterId => written.router_id.is_some(),
        NeighborStatement::LocalAddress => written.local.is_some(),
        NeighborStatement::LocalAs => written.local_as.is_some(),
        NeighborStatement::PeerAs => written.peer_as.is_some(),
        NeighborStatement::HoldTime => written.hold.is_some(),
        NeighborStatement::Connect => written.port.is_some(),
        NeighborStatement::Family => written.families.is_some(),
        NeighborStatement::AddPath => written.paths.is_some(),
        NeighborStatement::Capability => written.capabilities.is_some(),
        NeighborStatement::Static | NeighborStatement::Api => false,
    }
}

// The neighbour, where nothing is wrong and its section ends here.
fn neighbor_closed(
    alloc: Global,
    words: &mut FileTokens<'_>,
    peer: Addr,
    written: NeighborWritten,
) -> Result<NeighborRead, ConfigError>
    ensures read { Answers (neighbor_closed peer written) words.old.end words.old.left
        words.new.left result }
    ensures end { words.new.end ≡ words.old.end }
{
    let settings = settings_written(peer, &written);
    sign_or(words, b'}', wrong(settings, &written))?;
    let Some(settings) = settings else {
        unreachable!()
    };
    Ok(neighbor_read(alloc, written, settings)?)
}

// What is wrong at the closing brace: a statement is missing, or a static route would have an own address of another
// family as its next hop.
fn wrong(settings: Option<Settings>, written: &NeighborWritten) -> Option<ConfigKind>
    ensures { result ≡ neighbor_wrong settings written.now }
{
    let Some(settings) = settings else {
        return Some(ConfigKind::Missing);
    };
    if has_foreign(&settings, written.statics.as_slice()) {
        Some(ConfigKind::Family)
    } else {
        None
    }
}

fn has_foreign(settings: &Settings, routes: &[StaticRoute]) -> bool
    ensures { result ≡ list_any (is_foreign settings.now) routes.now }
{
    routes.iter().any(|route| is_foreign(settings, route))
}

fn is_foreign(settings: &Settings, route: &StaticRoute) -> bool
    ensures { result ≡ is_foreign settings.now route.now }
{
    is_own(&route.attrs.hop) && !is_family(settings.local.family(), route.key.family())
}

fn is_own(hop: &Hop) -> bool
    ensures { result ≡ is_own hop.now }
{
    match hop {
        Hop::Own => true,
        Hop::Is(_) => false,
    }
}

fn is_family(one: Family, other: Family) -> bool
    ensures { result ≡ is_family one other }
{
    match (one, other) {
        (Family::Ipv4, Family::Ipv4) | (Family::Ipv6, Family::Ipv6) => true,
        (Family::Ipv4, Family::Ipv6) | (Family::Ipv6, Family::Ipv4) => false,
    }
}

// The neighbour of what is written, with these settings.
fn neighbor_read(
    alloc: Global,
    written: NeighborWritten,
    settings: Settings,
) -> Result<NeighborRead, NoMemory>
    ensures { IfOk result (λ read. read ≡ neighbor_read written settings) }
{
    let processes = names_of(alloc, written.heard.as_slice())?;
    Ok(NeighborRead {
        neighbor: Neighbor {
            settings,
            statics: written.statics.into_statics(),
            processes,
        },
        heard: written.heard,
    })
}
