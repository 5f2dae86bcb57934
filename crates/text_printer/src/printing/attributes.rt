//! Keys, and the attributes that they are announced with.
ghost use Rattle.std.specs.Prelude.{OnOk};
ghost use Rattle.text_printer.specs.Printing.{attrs_tokens, id_tokens, key_tokens};
ghost use Rattle.text_printer.specs.Printing.{list_tokens, single_tokens};
ghost use Rattle.text_printer.specs.Spaced.{GoesOn};

use super::items::{put_if, put_named, put_named_if, put_number};
use super::lists::put_listed;
use super::path::put_path;
use super::values::{
    Community, Extended, FormedBy, Ipv4, LargeCommunity, Number, addr_word, origin_word,
    prefix_word,
};
use route_values::{Key, NoMemory, WireAttrs};

// The path identifier of a route that has none (RFC 7911, section 3, has no such value).
const NO_ID: u32 = 0;

/// Puts a prefix, and its path identifier where it has one.
pub fn put_key(text: &mut Vec<u8>, key: &Key) -> Result<(), NoMemory>
    ensures { OnOk result (GoesOn (key_tokens key.now) text.old.items text.new.items) }
{
    put_named(text, b"route", &prefix_word(&key.prefix))?;
    put_id(text, key.id)?;
    Ok(())
}

fn put_id(text: &mut Vec<u8>, id: u32) -> Result<(), NoMemory>
    ensures { OnOk result (GoesOn (id_tokens id) text.old.items text.new.items) }
{
    if id == NO_ID {
        Ok(())
    } else {
        put_number(text, b"path-information", id)
    }
}

/// Puts the attributes of an announcement: next hop, origin and path, and what else is present.
pub fn put_attrs(text: &mut Vec<u8>, sent: &WireAttrs) -> Result<(), NoMemory>
    ensures { OnOk result (GoesOn (attrs_tokens sent.now) text.old.items text.new.items) }
{
    put_named(text, b"next-hop", &addr_word(sent.hop))?;
    put_named(text, b"origin", origin_word(sent.origin))?;
    put_path(text, &sent.path)?;
    put_singles(text, sent)?;
    put_lists(text, sent)?;
    Ok(())
}

fn put_singles(text: &mut Vec<u8>, sent: &WireAttrs) -> Result<(), NoMemory>
    ensures { OnOk result (GoesOn (single_tokens sent.now) text.old.items text.new.items) }
{
    put_named_if(text, b"med", &Number, &sent.med)?;
    put_named_if(text, b"local-preference", &Number, &sent.local_pref)?;
    put_if(text, b"atomic-aggregate", sent.atomic)?;
    put_named_if(text, b"aggregator", &FormedBy, &sent.aggregator)?;
    Ok(())
}

fn put_lists(text: &mut Vec<u8>, sent: &WireAttrs) -> Result<(), NoMemory>
    ensures { OnOk result (GoesOn (list_tokens sent.now) text.old.items text.new.items) }
{
    put_listed(text, b"community", &Community, &sent.communities)?;
    put_named_if(text, b"originator-id", &Ipv4, &sent.originator)?;
    put_listed(text, b"cluster-list", &Ipv4, &sent.clusters)?;
    put_listed(text, b"extended-community", &Extended, &sent.extended)?;
    put_listed(text, b"large-community", &LargeCommunity, &sent.large)?;
    Ok(())
}
