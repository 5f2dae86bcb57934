//! Why a configuration is refused.
ghost use Rattle.std.specs.Prelude.{◌≡◌};
ghost use Rattle.config_model.specs.Kinds.{kind_number, kind_word};

use thiserror::Error;

/// What is wrong with a configuration.
#[derive(Clone, Copy, Debug, PartialEq, Eq, Error)]
pub enum ConfigKind {
    /// No reading goes on with this token, a value is out of range, or the file ends too early.
    #[error("token")]
    Token,
    /// A statement, a section, or a key among a neighbour's static routes stands twice.
    #[error("twice")]
    Twice,
    /// A section ends without a statement that it needs.
    #[error("missing")]
    Missing,
    /// An address has another family than it needs.
    #[error("family")]
    Family,
    /// There is one section, byte or element too many.
    #[error("many")]
    Many,
    /// A neighbour names a process that has no section.
    #[error("process")]
    Process,
    /// The file is too long.
    #[error("long")]
    Long,
    /// There is no process where one is needed.
    #[error("no-process")]
    NoProcess,
}

/// Why a configuration is refused, and where.
#[derive(Clone, Copy, Debug, PartialEq, Eq, Error)]
#[error("{line}:{column} {kind}")]
pub struct ConfigFault {
    /// The line, from 1, or 0 where the fault has no place.
    pub line: u32,
    /// The column in bytes, from 1, or 0 where the fault has no place.
    pub column: u32,
    pub kind: ConfigKind,
}

// The numbers of the kinds, by which a refusal is told.
const TOKEN: u8 = 1;

const TWICE: u8 = 2;

const MISSING: u8 = 3;

const FAMILY: u8 = 4;

const MANY: u8 = 5;

const PROCESS: u8 = 6;

const LONG: u8 = 7;

const NO_PROCESS: u8 = 8;

impl ConfigKind {
    /// The kind's number, from 1 to 8.
    pub fn number(self) -> u8
        ensures { result ≡ kind_number self }
    {
        match self {
            ConfigKind::Token => TOKEN,
            ConfigKind::Twice => TWICE,
            ConfigKind::Missing => MISSING,
            ConfigKind::Family => FAMILY,
            ConfigKind::Many => MANY,
            ConfigKind::Process => PROCESS,
            ConfigKind::Long => LONG,
            ConfigKind::NoProcess => NO_PROCESS,
        }
    }

    /// The word that is printed for the kind.
    pub fn word(self) -> &'static str
        ensures { result.now ≡ kind_word self }
    {
        match self {
            ConfigKind::Token => "token",
            ConfigKind::Twice => "twice",
            ConfigKind::Missing => "missing",
            ConfigKind::Family => "family",
            ConfigKind::Many => "many",
            ConfigKind::Process => "process",
            ConfigKind::Long => "long",
            ConfigKind::NoProcess => "no-process",
        }
    }
}

#[test]
fn each_kind_of_fault_has_a_number_and_a_word(rt: HostRuntime) {
    let table = [
        (ConfigKind::Token, 1, "token"),
        (ConfigKind::Twice, 2, "twice"),
        (ConfigKind::Missing, 3, "missing"),
        (ConfigKind::Family, 4, "family"),
        (ConfigKind::Many, 5, "many"),
        (ConfigKind::Process, 6, "process"),
        (ConfigKind::Long, 7, "long"),
        (ConfigKind::NoProcess, 8, "no-process"),
    ];
    'kinds: for (kind, number, word) in table {
        assert_eq!(rt; kind.number(), number, "{word}");
        assert_eq!(rt; kind.word(), word);
    }
}
