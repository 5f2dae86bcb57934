//! The first words of sections and of statements.
ghost use Rattle.std.specs.Prelude.{◌≡◌};

use crate::keywords::{Capability, NeighborStatement, ProcessStatement, Section};
use crate::spellings::is;
use crate::words::Kind;

/// The first word of a section.
pub struct SectionWord;

impl Kind for SectionWord {
    ghost use Rattle.config_reader.specs.Files.{IsSection};

    type Value = Section;

    ghost spells = { λ kind word value. IsSection word value };

    fn read(&self, word: &[u8]) -> Option<Section> {
        if is(word, b"process") {
            return Some(Section::Process);
        }
        if is(word, b"neighbor") {
            return Some(Section::Neighbor);
        }
        None
    }
}

/// The first word of a process's statement.
pub struct ProcessWord;

impl Kind for ProcessWord {
    ghost use Rattle.config_reader.specs.Processes.{IsProcessStatement};

    type Value = ProcessStatement;

    ghost spells = { λ kind word value. IsProcessStatement word value };

    fn read(&self, word: &[u8]) -> Option<ProcessStatement> {
        if is(word, b"run") {
            return Some(ProcessStatement::Run);
        }
        if is(word, b"encoder") {
            return Some(ProcessStatement::Encoder);
        }
        if is(word, b"respawn") {
            return Some(ProcessStatement::Respawn);
        }
        None
    }
}

/// The first word of a capability.
pub struct CapabilityWord;

impl Kind for CapabilityWord {
    ghost use Rattle.config_reader.specs.Capabilities.{IsCapability};

    type Value = Capability;

    ghost spells = { λ kind word value. IsCapability word value };

    fn read(&self, word: &[u8]) -> Option<Capability> {
        if is(word, b"add-path") {
            return Some(Capability::AddPath);
        }
        if is(word, b"route-refresh") {
            return Some(Capability::RouteRefresh);
        }
        if is(word, b"asn4") {
            return Some(Capability::Asn4);
        }
        if is(word, b"extended-message") {
            return Some(Capability::ExtendedMessage);
        }
        None
    }
}

/// The first word of a neighbour's statement.
pub struct NeighborWord;

impl Kind for NeighborWord {
    ghost use Rattle.config_reader.specs.Neighbors.{IsNeighborStatement};

    type Value = NeighborStatement;

    ghost spells = { λ kind word value. IsNeighborStatement word value };

    fn read(&self, word: &[u8]) -> Option<NeighborStatement> {
        if is(word, b"description") {
            return Some(NeighborStatement::Description);
        }
        if is(word, b"router-id") {
            return Some(NeighborStatement::RouterId);
        }
        if is(word, b"local-address") {
            return Some(NeighborStatement::LocalAddress);
        }
        if is(word, b"local-as") {
            return Some(NeighborStatement::LocalAs);
        }
        if is(word, b"peer-as") {
            return Some(NeighborStatement::PeerAs);
        }
        if is(word, b"hold-time") {
            return Some(NeighborStatement::HoldTime);
        }
        if is(word, b"connect") {
            return Some(NeighborStatement::Connect);
        }
        if is(word, b"family") {
            return Some(NeighborStatement::Family);
        }
        if is(word, b"add-path") {
            return Some(NeighborStatement::AddPath);
        }
        if is(word, b"capability") {
            return Some(NeighborStatement::Capability);
        }
        if is(word, b"static") {
            return Some(NeighborStatement::Static);
        }
        if is(word, b"api") {
            return Some(NeighborStatement::Api);
        }
        None
    }
}
