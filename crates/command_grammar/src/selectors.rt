//! Reads which neighbours a line is for.
ghost use Rattle.std.specs.Prelude.{◌≡◌, ◌↔◌, ◌∷◌, [], false, IsTrue, IfSome, IfNone};
ghost use Rattle.token_reader.specs.Tokens.{Word, front_token};
ghost use Rattle.route_grammar.specs.Answered.{Answers};
ghost use Rattle.route_grammar.specs.Limits.{in_force};
ghost use Rattle.route_grammar.specs.Productions.{nothing_further};
ghost use Rattle.command_grammar.specs.Keywords.{qualifier_word};
ghost use Rattle.command_grammar.specs.Selectors.{bare, IsUnwritten, Qualifying, Qualified};
ghost use Rattle.command_grammar.specs.Selectors.{OnePick};
ghost use Rattle.command_grammar.specs.Selectors.{Picks, further_pick, further_picks};

use crate::keywords::{Qualifier, qualifier_of};
use crate::words::{addr_at, asn_at, bad_token, front_word, ipv4_at, is_mark, keyword};
use route_grammar::ReadFault;
use route_values::{Addr, Items, Pick, Selector};
use std::alloc::Global;
use token_reader::{Tokens, Words};

/// What a pick begins with.
pub const NEIGHBOR: &[u8] = b"neighbor";

// What stands between picks.
const COMMA: u8 = b',';

/// Picks joined by commas.
pub fn picks_at(alloc: Global, words: &mut Tokens<'_>) -> Result<Selector, ReadFault>
    ensures read { Answers Picks further_picks in_force words.old.left words.new.left
        words.new.end result }
    ensures end { words.new.end ≡ words.old.end }
{
    let first = pick_at(words)?;
    let mut picks = Items::new(alloc);
    picks.push(first)?;
    'picks: while is_mark(words, COMMA) {
        words.advance();
        let pick = pick_at(words)?;
        picks.push(pick)?;
    }
    Ok(picks)
}

// A neighbour's address with its qualifiers.
fn pick_at(words: &mut Tokens<'_>) -> Result<Pick, ReadFault>
    ensures read { Answers OnePick further_pick in_force words.old.left words.new.left
        words.new.end result }
    ensures end { words.new.end ≡ words.old.end }
{
    keyword(words, NEIGHBOR)?;
    let peer = addr_at(words)?;
    qualified(words, bare(peer))
}

fn bare(peer: Addr) -> Pick
    ensures { result ≡ bare peer }
{
    Pick {
        peer,
        local: None,
        local_as: None,
        peer_as: None,
        router_id: None,
    }
}

// The pick with the qualifiers that follow. Each may be written once.
fn qualified(words: &mut Tokens<'_>, bare: Pick) -> Result<Pick, ReadFault>
    ensures read { Answers (Qualified bare) further_pick in_force words.old.left words.new.left
        words.new.end result }
    ensures end { words.new.end ≡ words.old.end }
{
    let mut pick = bare;
    'qualifiers: while let Some(which) = qualifier_at(words) {
        if is_written(which, &pick) {
            return Err(bad_token(words));
        }
        words.advance();
        pick = qualifying(words, which, pick)?;
    }
    Ok(pick)
}

// The qualifier that the front token begins.
fn qualifier_at(words: &Tokens<'_>) -> Option<Qualifier>
    ensures found { IfSome result
        (λ which. front_token words.now.left ≡ Some (Word (qualifier_word which))) }
    ensures none { IfNone result (further_pick (front_token words.now.left) ≡ false) }
{
    match front_word(words) {
        Some(word) => qualifier_of(word),
        None => None,
    }
}

fn is_written(which: Qualifier, pick: &Pick) -> bool
    ensures { (result ≡ false) ↔ IsUnwritten which pick.now }
{
    match which {
        Qualifier::LocalIp => pick.local.is_some(),
        Qualifier::LocalAs => pick.local_as.is_some(),
        Qualifier::PeerAs => pick.peer_as.is_some(),
        Qualifier::RouterId => pick.router_id.is_some(),
    }
}

// The pick with the value of a qualifier, whose own word stands before.
fn qualifying(words: &mut Tokens<'_>, which: Qualifier, pick: Pick) -> Result<Pick, ReadFault>
    ensures read { Answers (Qualifying which pick) nothing_further in_force words.old.left
        words.new.left words.new.end result }
    ensures end { words.new.end ≡ words.old.end }
{
    let mut with = pick;
    match which {
        Qualifier::LocalIp => with.local = Some(addr_at(words)?),
        Qualifier::LocalAs => with.local_as = Some(asn_at(words)?),
        Qualifier::PeerAs => with.peer_as = Some(asn_at(words)?),
        Qualifier::RouterId => with.router_id = Some(ipv4_at(words)?),
    }
    Ok(with)
}
