//! Reads the routes that a line announces or withdraws, behind the words that say so and up to the line's end.
ghost use Rattle.std.specs.Prelude.{◌≡◌, ◌∷◌, [], IfOk};
ghost use Rattle.route_grammar.specs.Answered.{Answers};
ghost use Rattle.route_grammar.specs.Limits.{in_force};
ghost use Rattle.route_grammar.specs.Productions.{all_further};
ghost use Rattle.command_grammar.specs.Routes.{Announced, Withdrawn, Listed, key_from, family_for};
ghost use Rattle.command_grammar.specs.declared.keywords.Form.TheVariants as form;

use crate::blocks::keys_at;
use crate::command::Command;
use crate::keywords::Form;
use crate::words::{bad_token, ended, keyword, prefix_at};
use route_grammar::{ReadFault, read_items};
use route_values::{Family, Hop, Items, Key, Keys, NoMemory, Prefix, Selector};
use std::alloc::Global;
use token_reader::Tokens;

// What prefixes stand behind, where items come first.
const NLRI: &[u8] = b"nlri";

/// Routes to announce, which need a next hop.
pub fn announced(
    alloc: Global,
    words: &mut Tokens<'_>,
    pick: Selector,
    form: Form,
) -> Result<Command, ReadFault>
    ensures read { Answers (Announced pick form) all_further in_force words.old.left
        words.new.left words.new.end result }
    ensures end { words.new.end ≡ words.old.end }
{
    match form {
        Form::Route => announced_route(alloc, words, pick),
        Form::Attributes => announced_listed(alloc, words, pick),
    }
}

/// Routes to withdraw.
pub fn withdrawn(
    alloc: Global,
    words: &mut Tokens<'_>,
    pick: Selector,
    form: Form,
) -> Result<Command, ReadFault>
    ensures read { Answers (Withdrawn pick form) all_further in_force words.old.left
        words.new.left words.new.end result }
    ensures end { words.new.end ≡ words.old.end }
{
    match form {
        Form::Route => withdrawn_route(alloc, words, pick),
        Form::Attributes => withdrawn_listed(alloc, words, pick),
    }
}

// A prefix with the items that it is announced with.
fn announced_route(
    alloc: Global,
    words: &mut Tokens<'_>,
    pick: Selector,
) -> Result<Command, ReadFault>
    ensures read { Answers (Announced pick form.Route) all_further in_force words.old.left
        words.new.left words.new.end result }
    ensures end { words.new.end ≡ words.old.end }
{
    let prefix = prefix_at(words)?;
    let items = read_items(alloc, words, Some(prefix.family()))?;
    if !items.has_hop {
        return Err(bad_token(words));
    }
    let keys = one_key(alloc, prefix, items.id)?;
    let attrs = items.attrs;
    ended(words, Command::Announce { pick, keys, attrs })
}

// Items with the prefixes that are announced with them.
fn announced_listed(
    alloc: Global,
    words: &mut Tokens<'_>,
    pick: Selector,
) -> Result<Command, ReadFault>
    ensures read { Answers (Announced pick form.Attributes) all_further in_force words.old.left
        words.new.left words.new.end result }
    ensures end { words.new.end ≡ words.old.end }
{
    let items = read_items(alloc, words, None)?;
    if !items.has_hop {
        return Err(bad_token(words));
    }
    let keys = listed(alloc, words, items.id, items.attrs.hop)?;
    let attrs = items.attrs;
    Ok(Command::Announce { pick, keys, attrs })
}

// A prefix with items, of which the identifier alone counts.
fn withdrawn_route(
    alloc: Global,
    words: &mut Tokens<'_>,
    pick: Selector,
) -> Result<Command, ReadFault>
    ensures read { Answers (Withdrawn pick form.Route) all_further in_force words.old.left
        words.new.left words.new.end result }
    ensures end { words.new.end ≡ words.old.end }
{
    let prefix = prefix_at(words)?;
    let items = read_items(alloc, words, Some(prefix.family()))?;
    let keys = one_key(alloc, prefix, items.id)?;
    ended(words, Command::Withdraw { pick, keys })
}

// Items, of which the identifier and the next hop's family count, with prefixes.
fn withdrawn_listed(
    alloc: Global,
    words: &mut Tokens<'_>,
    pick: Selector,
) -> Result<Command, ReadFault>
    ensures read { Answers (Withdrawn pick form.Attributes) all_further in_force words.old.left
        words.new.left words.new.end result }
    ensures end { words.new.end ≡ words.old.end }
{
    let items = read_items(alloc, words, None)?;
    let hop = items.attrs.hop;
    let keys = listed(alloc, words, items.id, hop)?;
    Ok(Command::Withdraw { pick, keys })
}

// The word `nlri` and prefixes that may have this next hop.
fn listed(alloc: Global, words: &mut Tokens<'_>, id: u32, hop: Hop) -> Result<Keys, ReadFault>
    ensures read { Answers (Listed id hop) all_further in_force words.old.left words.new.left
        words.new.end result }
    ensures end { words.new.end ≡ words.old.end }
{
    keyword(words, NLRI)?;
    keys_at(alloc, words, id, family_for(hop))
}

fn family_for(hop: Hop) -> Option<Family>
    ensures { result ≡ family_for hop }
{
    match hop {
        Hop::Own => None,
        Hop::Is(addr) => Some(addr.family()),
    }
}

// The key of a prefix with an identifier, as a list.
fn one_key(alloc: Global, prefix: Prefix, id: u32) -> Result<Keys, NoMemory>
    ensures { IfOk result (λ keys. keys ≡ key_from id prefix ∷ []) }
{
    let mut keys = Items::new(alloc);
    keys.push(Key { prefix, id })?;
    Ok(keys)
}
