//! What the statements of a neighbour say behind their first words.
ghost use Rattle.std.specs.Prelude.{◌≡◌, not};
ghost use Rattle.config_model.specs.declared.fault.ConfigKind.TheVariants as kind;
ghost use Rattle.config_reader.specs.declared.keywords.NeighborStatement.TheVariants as says;
ghost use Rattle.config_reader.specs.Answered.{Answers};
ghost use Rattle.config_reader.specs.Rules.{where_so};
ghost use Rattle.config_reader.specs.Neighbors.{local_at, neighbor_operand, same_family};
ghost use Rattle.config_reader.specs.Words.{word_or};
ghost use Rattle.text_forms.specs.Families.{IsAddrText};

use crate::capabilities::capabilities_at;
use crate::families::families_at;
use crate::fault::ConfigError;
use crate::heard::heard_at;
use crate::keywords::NeighborStatement;
use crate::passed::words_passed;
use crate::spellings::{AddrWord, AsnWord, HoldWord, Ipv4Word, PortWord};
use crate::statics::statics_at;
use crate::words::{fault, front_value, sign, word_ended};
use crate::written::NeighborWritten;
use config_model::ConfigKind;
use route_values::Addr;
use std::alloc::Global;
use token_reader::{FileTokens, Words};

/// What stands behind the first word of a statement, besides what is written.
pub fn neighbor_operand(
    alloc: Global,
    words: &mut FileTokens<'_>,
    peer: Addr,
    written: NeighborWritten,
    which: NeighborStatement,
) -> Result<NeighborWritten, ConfigError>
    ensures read { Answers (neighbor_operand peer written which) words.old.end words.old.left
        words.new.left result }
    ensures end { words.new.end ≡ words.old.end }
{
    match which {
        NeighborStatement::Description => description(words, peer, written),
        NeighborStatement::RouterId => router_id(words, peer, written),
        NeighborStatement::LocalAddress => local_address(words, peer, written),
        NeighborStatement::LocalAs => local_as(words, peer, written),
        NeighborStatement::PeerAs => peer_as(words, peer, written),
        NeighborStatement::HoldTime => hold_time(words, peer, written),
        NeighborStatement::Connect => connect(words, peer, written),
        NeighborStatement::Family => family(words, peer, written),
        NeighborStatement::AddPath => add_path(words, peer, written),
        NeighborStatement::Capability => capability(words, peer, written),
        NeighborStatement::Static => statics(alloc, words, peer, written),
        NeighborStatement::Api => api(words, peer, written),
    }
}

// Words that mean nothing.
fn description(
    words: &mut FileTokens<'_>,
    peer: Addr,
    written: NeighborWritten,
) -> Result<NeighborWritten, ConfigError>
    ensures read { Answers (neighbor_operand peer written says.Description) words.old.end
        words.old.left words.new.left result }
    ensures end { words.new.end ≡ words.old.end }
{
    words_passed(words)?;
    Ok(NeighborWritten {
        description: true,
        ..written
    })
}

// The BGP identifier.
fn router_id(
    words: &mut FileTokens<'_>,
    peer: Addr,
    written: NeighborWritten,
) -> Result<NeighborWritten, ConfigError>
    ensures read { Answers (neighbor_operand peer written says.RouterId) words.old.end
        words.old.left words.new.left result }
    ensures end { words.new.end ≡ words.old.end }
{
    let value = word_ended(words, &Ipv4Word)?;
    Ok(NeighborWritten {
        router_id: Some(value),
        ..written
    })
}

// The own address.
fn local_address(
    words: &mut FileTokens<'_>,
    peer: Addr,
    written: NeighborWritten,
) -> Result<NeighborWritten, ConfigError>
    ensures read { Answers (neighbor_operand peer written says.LocalAddress) words.old.end
        words.old.left words.new.left result }
    ensures end { words.new.end ≡ words.old.end }
{
    let value = local_at(words, peer)?;
    Ok(NeighborWritten {
        local: Some(value),
        ..written
    })
}

// The own AS.
fn local_as(
    words: &mut FileTokens<'_>,
    peer: Addr,
    written: NeighborWritten,
) -> Result<NeighborWritten, ConfigError>
    ensures read { Answers (neighbor_operand peer written says.LocalAs) words.old.end
        words.old.left words.new.left result }
    ensures end { words.new.end ≡ words.old.end }
{
    let value = word_ended(words, &AsnWord)?;
    Ok(NeighborWritten {
        local_as: Some(value),
        ..written
    })
}

// The neighbour's AS.
fn peer_as(
    words: &mut FileTokens<'_>,
    peer: Addr,
    written: NeighborWritten,
) -> Result<NeighborWritten, ConfigError>
    ensures read { Answers (neighbor_operand peer written says.PeerAs) words.old.end
        words.old.left words.new.left result }
    ensures end { words.new.end ≡ words.old.end }
{
    let value = word_ended(words, &AsnWord)?;
    Ok(NeighborWritten {
        peer_as: Some(value),
        ..written
    })
}

// The hold time.
fn hold_time(
    words: &mut FileTokens<'_>,
    peer: Addr,
    written: NeighborWritten,
) -> Result<NeighborWritten, ConfigError>
    ensures read { Answers (neighbor_operand peer written says.HoldTime) words.old.end
        words.old.left words.new.left result }
    ensures end { words.new.end ≡ words.old.end }
{
    let value = word_ended(words, &HoldWord)?;
    Ok(NeighborWritten {
        hold: Some(value),
        ..written
    })
}

// The TCP port.
fn connect(
    words: &mut FileTokens<'_>,
    peer: Addr,
    written: NeighborWritten,
) -> Result<NeighborWritten, ConfigError>
    ensures read { Answers (neighbor_operand peer written says.Connect) words.old.end
        words.old.left words.new.left result }
    ensures end { words.new.end ≡ words.old.end }
{
    let value = word_ended(words, &PortWord)?;
    Ok(NeighborWritten {
        port: Some(value),
        ..written
    })
}

// The families.
fn family(
    words: &mut FileTokens<'_>,
    peer: Addr,
    written: NeighborWritten,
) -> Result<NeighborWritten, ConfigError>
    ensures read { Answers (neighbor_operand peer written says.Family) words.old.end
        words.old.left words.new.left result }
    ensures end { words.new.end ≡ words.old.end }
{
    let value = families_at(words)?;
    Ok(NeighborWritten {
        families: Some(value),
        ..written
    })
}

// The families for which path identifiers are offered.
fn add_path(
    words: &mut FileTokens<'_>,
    peer: Addr,
    written: NeighborWritten,
) -> Result<NeighborWritten, ConfigError>
    ensures read { Answers (neighbor_operand peer written says.AddPath) words.old.end
        words.old.left words.new.left result }
    ensures end { words.new.end ≡ words.old.end }
{
    let value = families_at(words)?;
    Ok(NeighborWritten {
        paths: Some(value),
        ..written
    })
}

// The capabilities.
fn capability(
    words: &mut FileTokens<'_>,
    peer: Addr,
    written: NeighborWritten,
) -> Result<NeighborWritten, ConfigError>
    ensures read { Answers (neighbor_operand peer written says.Capability) words.old.end
        words.old.left words.new.left result }
    ensures end { words.new.end ≡ words.old.end }
{
    let value = capabilities_at(words)?;
    Ok(NeighborWritten {
        capabilities: Some(value),
        ..written
    })
}

// Static routes, behind those of earlier sections.
fn statics(
    alloc: Global,
    words: &mut FileTokens<'_>,
    peer: Addr,
    written: NeighborWritten,
) -> Result<NeighborWritten, ConfigError>
    ensures read { Answers (neighbor_operand peer written says.Static) words.old.end
        words.old.left words.new.left result }
    ensures end { words.new.end ≡ words.old.end }
{
    let statics = statics_at(alloc, words, written.statics)?;
    Ok(NeighborWritten { statics, ..written })
}

// The processes that it hears, behind those of earlier sections.
fn api(
    words: &mut FileTokens<'_>,
    peer: Addr,
    written: NeighborWritten,
) -> Result<NeighborWritten, ConfigError>
    ensures read { Answers (neighbor_operand peer written says.Api) words.old.end words.old.left
        words.new.left result }
    ensures end { words.new.end ≡ words.old.end }
{
    let heard = heard_at(words, written.heard)?;
    Ok(NeighborWritten { heard, ..written })
}

// The own address, which has the neighbour's family, and `;`.
fn local_at(words: &mut FileTokens<'_>, peer: Addr) -> Result<Addr, ConfigError>
    ensures read { Answers (local_at peer) words.old.end words.old.left words.new.left result }
    ensures end { words.new.end ≡ words.old.end }
{
    let local = addr_like(words, peer)?;
    sign(words, b';')?;
    Ok(local)
}

// An address of the neighbour's family.
fn addr_like(words: &mut FileTokens<'_>, peer: Addr) -> Result<Addr, ConfigError>
    ensures read { Answers
        (word_or IsAddrText (λ local. where_so kind.Family (not (same_family local peer))))
        words.old.end words.old.left words.new.left result }
    ensures end { words.new.end ≡ words.old.end }
{
    let Some(local) = front_value(words, &AddrWord) else {
        return Err(fault(words, ConfigKind::Token));
    };
    if !same_family(local, peer) {
        return Err(fault(words, ConfigKind::Family));
    }
    words.advance();
    Ok(local)
}

fn same_family(one: Addr, other: Addr) -> bool
    ensures { result ≡ same_family one other }
{
    match (one, other) {
        (Addr::V4(_), Addr::V4(_)) | (Addr::V6(_), Addr::V6(_)) => true,
        (Addr::V4(_), Addr::V6(_)) | (Addr::V6(_), Addr::V4(_)) => false,
    }
}
