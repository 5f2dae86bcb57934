//! The kinds of items, and sets of them.
ghost use Rattle.std.specs.Prelude.{◌≡◌, ◌↔◌, List, [], ◌∷◌, IsTrue, IfSome, IfNone};
ghost use Rattle.route_grammar.specs.declared.kind.Kind.{Kind as AnyKind};
ghost use Rattle.route_grammar.specs.Items.{IsKeyword, is_among, kind_code};
ghost use Rattle.route_grammar.specs.Kinds.{HasKinds};

// How many kinds there are.
const KINDS: usize = 13;

/// What an item says, by the word that it begins with.
#[derive(Clone, Copy, Debug, PartialEq, Eq)]
pub enum Kind {
    NextHop,
    Origin,
    Path,
    Med,
    LocalPref,
    Atomic,
    Aggregator,
    Communities,
    Originator,
    Clusters,
    Extended,
    Large,
    PathId,
}

impl Kind {
    // The number of the kind.
    fn number(self) -> usize
        ensures { result ≡ kind_code self }
    {
        match self {
            Kind::NextHop => 0,
            Kind::Origin => 1,
            Kind::Path => 2,
            Kind::Med => 3,
            Kind::LocalPref => 4,
            Kind::Atomic => 5,
            Kind::Aggregator => 6,
            Kind::Communities => 7,
            Kind::Originator => 8,
            Kind::Clusters => 9,
            Kind::Extended => 10,
            Kind::Large => 11,
            Kind::PathId => 12,
        }
    }
}

/// A set of kinds.
#[derive(Drop)]
pub struct Kinds {
    marks: [bool; KINDS],
}

impl Kinds {
    /// No kind.
    pub fn new() -> Kinds
        ensures { HasKinds result [] }
    {
        Kinds {
            marks: [false; KINDS],
        }
    }

    /// Whether a kind is among them.
    pub fn has(&self, kind: Kind) -> bool
        ensures { (kinds : List AnyKind) → HasKinds self.now kinds → result ≡ is_among kind kinds }
    {
        self.marks[kind.number()]
    }

    /// Takes a kind in.
    pub fn add(&mut self, kind: Kind)
        ensures { (kinds : List AnyKind) → HasKinds self.old kinds
            → HasKinds self.new (kind ∷ kinds) }
    {
        self.marks[kind.number()] = true;
    }
}

/// The kind of the item that begins with a word.
pub fn kind_of(word: &[u8]) -> Option<Kind>
    ensures found { IfSome result (λ kind. IsKeyword word.now kind) }
    ensures none { IfNone result ((kind : AnyKind) → IsKeyword word.now kind → ⊥) }
{
    if is(word, b"next-hop") {
        return Some(Kind::NextHop);
    }
    if is(word, b"origin") {
        return Some(Kind::Origin);
    }
    if is(word, b"as-path") {
        return Some(Kind::Path);
    }
    if is(word, b"med") {
        return Some(Kind::Med);
    }
    if is(word, b"local-preference") {
        return Some(Kind::LocalPref);
    }
    if is(word, b"atomic-aggregate") {
        return Some(Kind::Atomic);
    }
    if is(word, b"aggregator") {
        return Some(Kind::Aggregator);
    }
    if is(word, b"community") {
        return Some(Kind::Communities);
    }
    if is(word, b"originator-id") {
        return Some(Kind::Originator);
    }
    if is(word, b"cluster-list") {
        return Some(Kind::Clusters);
    }
    if is(word, b"extended-community") {
        return Some(Kind::Extended);
    }
    if is(word, b"large-community") {
        return Some(Kind::Large);
    }
    if is(word, b"path-information") {
        return Some(Kind::PathId);
    }
    None
}

/// Whether a word is this text.
pub fn is(word: &[u8], text: &[u8]) -> bool
    ensures { IsTrue result ↔ (word.now ≡ text.now) }
{
    word == text
}
