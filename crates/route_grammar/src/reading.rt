//! Reads the items of a route.
ghost use Rattle.std.specs.Prelude.{◌≡◌, Some};
ghost use Rattle.token_reader.specs.Tokens.{Word, front_token};
ghost use Rattle.route_grammar.specs.Answered.{Answers};
ghost use Rattle.route_grammar.specs.Items.{ItemOf, ReadsItems, keyword, items_further};
ghost use Rattle.route_grammar.specs.Limits.{in_force};
ghost use Rattle.route_grammar.specs.Productions.{nothing_further};

use crate::fault::ReadFault;
use crate::item_words::KindWord;
use crate::items::{Item, Items};
use crate::kind::{Kind, Kinds};
use crate::operands::read_operand;
use crate::words::{bad_token, front_value};
use route_values::Family;
use std::alloc::Global;
use token_reader::Words;

/// The items from the front token on, up to the first token that begins none. Each kind of item stands at most once,
/// and the next hop's address is of the family, where one is given. After a fault its token stands at the front.
pub fn read_items<W: Words>(
    alloc: Global,
    words: &mut W,
    family: Option<Family>,
) -> Result<Items, ReadFault>
    ensures answers { Answers (ReadsItems family) items_further in_force (W.left words.old)
        (W.left words.new) (W.end words.new) result }
    ensures end { W.end words.new ≡ W.end words.old }
{
    let mut items = Items::none(alloc);
    let mut seen = Kinds::new();
    'items: while let Some(kind) = front_value(words, &KindWord) {
        if seen.has(kind) {
            return Err(bad_token(words));
        }
        let item = read_item(alloc, words, family, kind)?;
        items.put(item);
        seen.add(kind);
    }
    Ok(items)
}

// The item of a kind, whose word is in front.
fn read_item<W: Words>(
    alloc: Global,
    words: &mut W,
    family: Option<Family>,
    kind: Kind,
) -> Result<Item, ReadFault>
    requires { front_token (W.left words.old) ≡ Some (Word (keyword kind)) }
    ensures answers { Answers (ItemOf family kind) nothing_further in_force (W.left words.old)
        (W.left words.new) (W.end words.new) result }
    ensures end { W.end words.new ≡ W.end words.old }
{
    words.advance();
    read_operand(alloc, words, family, kind)
}
