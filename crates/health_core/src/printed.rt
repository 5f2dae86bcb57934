//! Texts that are printed.
ghost use Rattle.std.specs.Prelude.{◌≡◌, ◌≤◌, ◌+◌, ◌*◌, ◌++◌, ◌∷◌, [], decimal, length, OnOk};
ghost use Rattle.std.specs.Prelude.{OnErr};
ghost use Rattle.std.specs.List.{flat_map};
ghost use Rattle.text_forms.specs.Printed.{prefix_text};
ghost use Rattle.health_core.specs.Printing.{hop_text, prefix_texts};

use arrayvec::ArrayVec;
use route_values::{Hop, Key, NoMemory, Prefix};
use std::alloc::Global;
use std::marker::Model;
use text_forms::{MAX_IPV6_TEXT, MAX_PREFIX_TEXT, MAX_U32_TEXT, put_addr, put_prefix, put_u32};

// How many bytes a prefix takes at most, with a space before it.
const MAX_SPACED: usize = MAX_PREFIX_TEXT + 1;

/// A text. Contracts see the list of its bytes.
#[derive(Debug, Drop)]
pub struct Printed {
    bytes: Vec<u8>,
}

impl Model for Printed {
    ghost use Rattle.std.specs.Prelude.{ℕ, List};

    ghost Value = { List ℕ };

    ghost view = { λ printed. printed.bytes.items };
}

impl Printed {
    /// The bytes in order.
    pub fn as_bytes(&self) -> &[u8]
        ensures { result.now ≡ self.now }
    {
        &self.bytes
    }

    /// No byte, which takes no memory.
    pub fn new(alloc: Global) -> Printed
        ensures { result ≡ [] }
    {
        Printed {
            bytes: Vec::new(alloc),
        }
    }

    /// Puts bytes at the end. Where memory is wanting the text stays as it was.
    pub fn put(&mut self, piece: &[u8]) -> Result<(), NoMemory>
        ensures ok { OnOk result (self.new ≡ self.old ++ piece.now) }
        ensures err { OnErr result (self.new ≡ self.old) }
    {
        self.bytes.extend_from_slice(piece)?;
        Ok(())
    }

    /// Puts a number in decimal digits.
    pub fn put_number(&mut self, number: u32) -> Result<(), NoMemory>
        ensures text { OnOk result (self.new ≡ self.old ++ decimal number) }
        ensures short { OnOk result (length self.new ≤ length self.old + MAX_U32_TEXT) }
    {
        let mut text: ArrayVec<u8, MAX_U32_TEXT> = ArrayVec::new();
        put_u32(number, &mut text);
        self.put(&text)
    }

    /// Puts a next hop: its address, or `self`.
    pub fn put_hop(&mut self, hop: Hop) -> Result<(), NoMemory>
        ensures text { OnOk result (self.new ≡ self.old ++ hop_text hop) }
        ensures short { OnOk result (length self.new ≤ length self.old + MAX_IPV6_TEXT) }
    {
        let mut text: ArrayVec<u8, MAX_IPV6_TEXT> = ArrayVec::new();
        match hop {
            Hop::Own => {
                let _ = text.try_extend_from_slice(b"self");
            }
            Hop::Is(addr) => put_addr(addr, &mut text),
        }
        self.put(&text)
    }

    /// Puts prefixes in order, each behind one space.
    pub fn put_prefixes(&mut self, keys: &[Key]) -> Result<(), NoMemory>
        ensures text { OnOk result
            (self.new ≡ self.old ++ flat_map (λ word. 32 ∷ word) (prefix_texts keys.now)) }
        ensures short { OnOk result
            (length self.new ≤ length self.old + MAX_SPACED * length keys.now) }
    {
        'prefixes: for key in keys {
            self.put_prefix(&key.prefix)?;
        }
        Ok(())
    }

    // Puts a space and a prefix.
    fn put_prefix(&mut self, prefix: &Prefix) -> Result<(), NoMemory>
        ensures text { OnOk result (self.new ≡ self.old ++ 32 ∷ prefix_text prefix.now) }
        ensures short { OnOk result (length self.new ≤ length self.old + MAX_SPACED) }
    {
        let mut text: ArrayVec<u8, MAX_SPACED> = ArrayVec::new();
        text.push(b' ');
        put_prefix(prefix, &mut text);
        self.put(&text)
    }
}
