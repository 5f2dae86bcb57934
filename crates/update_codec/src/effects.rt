//! The effects of a message.
ghost use Rattle.std.specs.Prelude.{◌≡◌, ◌++◌, List};
ghost use Rattle.std.specs.List.{flat_map};
ghost use Rattle.update_grammar.specs.Update.{gone_all};

use route_values::{Key, Keys, WireAttrs};
use std::marker::Model;

/// Keys that are announced with the same attributes.
#[derive(Debug, Drop)]
pub struct Announced {
    pub attrs: WireAttrs,
    pub keys: Keys,
}

/// The effects of one UPDATE, in order: first the keys that it withdraws, then those that it announces. Attributes are
/// kept once for all keys that are announced with them. Contracts see a list of effects.
#[derive(Debug, Drop)]
pub struct Effects {
    gone: Keys,
    here: Vec<Announced>,
}

impl Model for Effects {
    ghost use Rattle.std.specs.Prelude.{List, ◌++◌};
    ghost use Rattle.std.specs.List.{flat_map};
    ghost use Rattle.update_grammar.specs.declared.effect.Effect.{Effect};
    ghost use Rattle.update_grammar.specs.Update.{gone_all};
    ghost use Rattle.update_codec.specs.Effects.{announced_effects};

    ghost Value = { List Effect };

    ghost view = { λ e. gone_all e.gone ++ flat_map announced_effects e.here.items };
}

/// What an UPDATE withdraws and announces, in the order of its effects.
#[derive(Clone, Copy, Debug)]
pub struct Parts<'a> {
    pub gone: &'a [Key],
    pub here: &'a [Announced],
}

impl Effects {
    ghost use Rattle.update_codec.specs.Effects.{announced_effects};

    /// The effects that withdraw these keys and then announce those.
    pub fn new(gone: Keys, here: Vec<Announced>) -> Effects
        ensures { result ≡ gone_all gone ++ flat_map announced_effects here.items }
    {
        Effects { gone, here }
    }

    /// The keys that are withdrawn, and those that are announced.
    pub fn parts(&self) -> Parts<'_>
        ensures { self.now
            ≡ gone_all result.gone.now ++ flat_map announced_effects result.here.now }
    {
        Parts {
            gone: self.gone.as_slice(),
            here: self.here.as_slice(),
        }
    }
}
