//! Paths of AS numbers (RFC 4271, section 4.3), as they are written.
ghost use Rattle.std.specs.Prelude.{◌≡◌, ◌<◌, ◌++◌, ◌∷◌, List, [], Some, true, OnOk, IfOk};
ghost use Rattle.route_values.specs.Path.{AllFilled};
ghost use Rattle.token_reader.specs.Tokens.{Mark, front_token};
ghost use Rattle.route_grammar.specs.Answered.{Answers};
ghost use Rattle.route_grammar.specs.Limits.{in_force};
ghost use Rattle.route_grammar.specs.Lists.{OnePath, PartBehind, SetBehind, OnePart};
ghost use Rattle.route_grammar.specs.Lists.{AreFewNumbers, AreJoined, joined, closed};
ghost use Rattle.route_grammar.specs.Lists.{opening_bracket, closing_bracket, count_of, onto};
ghost use Rattle.route_grammar.specs.Productions.{OneWord, Saying, Bracketed, nothing_further};
ghost use Rattle.route_grammar.specs.declared.path.Part.{Part as AnyPart};
ghost use Rattle.text_forms.specs.Numbers.{IsAsn};

use crate::fault::ReadFault;
use crate::lists::no_room;
use crate::spellings::Asn;
use crate::words::{is_mark, read_word};
use answers::NoMemory;
use route_values::{AsPath, Items, MAX_AS_NUMBERS, Segment, U32s};
use std::alloc::Global;
use std::mem;
use token_reader::Words;

/// A part of a path between brackets.
#[derive(Debug, Drop)]
pub enum Part {
    /// An AS number outside parentheses.
    Number(u32),
    /// The AS numbers between parentheses.
    Set(U32s),
}

impl Part {
    // How many numbers the part has.
    fn count(&self) -> usize
        ensures { result ≡ count_of (self.now ∷ []) }
    {
        match self {
            Part::Number(_) => 1,
            Part::Set(numbers) => numbers.len(),
        }
    }
}

// The segments of parts so far: those that are whole, and the numbers of the sequence that goes on.
#[derive(Drop)]
struct Drawn {
    whole: Vec<Segment>,
    run: U32s,
}

impl Drawn {
    // No part.
    fn new(alloc: Global) -> Drawn
        ensures whole { result.whole.items ≡ [] }
        ensures run { result.run ≡ [] }
    {
        Drawn {
            whole: Vec::new(alloc),
            run: Items::new(alloc),
        }
    }

    // Puts a part behind the others.
    fn put(&mut self, alloc: Global, part: Part) -> Result<(), NoMemory>
        ensures { (parts : List AnyPart) → AreJoined self.old.whole.items self.old.run parts
            → 0 < count_of (part ∷ [])
            → OnOk result (AreJoined self.new.whole.items self.new.run (parts ++ part ∷ [])) }
    {
        match part {
            Part::Number(number) => self.run.push(number),
            Part::Set(numbers) => self.put_set(alloc, numbers),
        }
    }

    fn put_set(&mut self, alloc: Global, numbers: U32s) -> Result<(), NoMemory>
        ensures whole { OnOk result (self.new.whole.items
            ≡ (self.old.whole.items ++ closed self.old.run)
            ++ record { set = true; numbers = numbers } ∷ []) }
        ensures run { OnOk result (self.new.run ≡ []) }
    {
        self.close(alloc)?;
        self.whole.push(Segment { set: true, numbers })?;
        Ok(())
    }

    // Ends the sequence.
    fn close(&mut self, alloc: Global) -> Result<(), NoMemory>
        ensures whole { OnOk result
            (self.new.whole.items ≡ self.old.whole.items ++ closed self.old.run) }
        ensures run { OnOk result (self.new.run ≡ []) }
    {
        if self.run.len() == 0 {
            return Ok(());
        }
        let numbers = mem::replace(&mut self.run, Items::new(alloc));
        self.whole.push(Segment {
            set: false,
            numbers,
        })?;
        Ok(())
    }

    // The path of all parts.
    fn into_path(self, alloc: Global) -> Result<AsPath, NoMemory>
        requires { AllFilled self.whole.items }
        ensures { IfOk result (λ path. path ≡ self.whole.items ++ closed self.run) }
    {
        let mut drawn = self;
        drawn.close(alloc)?;
        Ok(AsPath::from_segments(drawn.whole))
    }
}

/// One AS number, or numbers and sets of numbers between brackets, together no more than a path may have.
pub fn read_path<W: Words>(alloc: Global, words: &mut W) -> Result<AsPath, ReadFault>
    ensures answers { Answers OnePath nothing_further in_force (W.left words.old)
        (W.left words.new) (W.end words.new) result }
    ensures end { W.end words.new ≡ W.end words.old }
{
    if is_mark(words, b'[') {
        read_parts(alloc, words)
    } else {
        read_lone(alloc, words)
    }
}

// A path of one number.
fn read_lone<W: Words>(alloc: Global, words: &mut W) -> Result<AsPath, ReadFault>
    ensures answers { Answers (Saying (λ number. onto number []) (OneWord IsAsn)) nothing_further
        in_force (W.left words.old) (W.left words.new) (W.end words.new) result }
    ensures end { W.end words.new ≡ W.end words.old }
{
    let number = read_word(words, &Asn)?;
    let mut drawn = Drawn::new(alloc);
    drawn.put(alloc, Part::Number(number))?;
    let path = drawn.into_path(alloc)?;
    Ok(path)
}

// The parts of a path between brackets.
fn read_parts<W: Words>(alloc: Global, words: &mut W) -> Result<AsPath, ReadFault>
    requires { front_token (W.left words.old) ≡ Some (Mark 91) }
    ensures answers { Answers
        (Saying joined (Bracketed opening_bracket closing_bracket OnePart AreFewNumbers))
        nothing_further in_force (W.left words.old) (W.left words.new) (W.end words.new) result }
    ensures end { W.end words.new ≡ W.end words.old }
{
    words.advance();
    let mut drawn = Drawn::new(alloc);
    let mut count = 0;
    'parts: while !is_mark(words, b']') {
        if count >= MAX_AS_NUMBERS {
            return Err(no_room(words, &Asn, MAX_AS_NUMBERS as u32));
        }
        let part = read_part(alloc, words, count)?;
        count += part.count();
        drawn.put(alloc, part)?;
    }
    words.advance();
    let path = drawn.into_path(alloc)?;
    Ok(path)
}

// A number, or a set, behind so many numbers.
fn read_part<W: Words>(alloc: Global, words: &mut W, before: usize) -> Result<Part, ReadFault>
    requires { before < 255 }
    ensures answers { Answers (PartBehind before) nothing_further in_force (W.left words.old)
        (W.left words.new) (W.end words.new) result }
    ensures end { W.end words.new ≡ W.end words.old }
{
    if is_mark(words, b'(') {
        let numbers = read_set(alloc, words, before)?;
        return Ok(Part::Set(numbers));
    }
    let number = read_word(words, &Asn)?;
    Ok(Part::Number(number))
}

// At least one number between parentheses, behind so many numbers.
fn read_set<W: Words>(alloc: Global, words: &mut W, before: usize) -> Result<U32s, ReadFault>
    requires open { front_token (W.left words.old) ≡ Some (Mark 40) }
    requires room { before < 255 }
    ensures answers { Answers (SetBehind before) nothing_further in_force (W.left words.old)
        (W.left words.new) (W.end words.new) result }
    ensures end { W.end words.new ≡ W.end words.old }
{
    words.advance();
    let first = read_word(words, &Asn)?;
    let mut numbers = Items::new(alloc);
    numbers.push(first)?;
    'numbers: while !is_mark(words, b')') {
        if before + numbers.len() >= MAX_AS_NUMBERS {
            return Err(no_room(words, &Asn, MAX_AS_NUMBERS as u32));
        }
        let number = read_word(words, &Asn)?;
        numbers.push(number)?;
    }
    words.advance();
    Ok(numbers)
}
