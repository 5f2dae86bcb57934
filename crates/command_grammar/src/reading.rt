//! Lines with what reading them gave.
ghost use Rattle.std.specs.Prelude.{◌≡◌};
ghost use Rattle.text_forms.specs.Lines.{Text};
ghost use Rattle.text_forms.specs.LineTold.{line_told};
ghost use Rattle.command_grammar.specs.Readings.{Says, IsReading};

use crate::command::Command;
use crate::lines::{begins_remark, spoken};
use route_grammar::{LineFault, ReadFault};
use std::alloc::Global;
use std::marker::Model;
use text_forms::Line;
use token_reader::{MAX_LINE, Tokens};

/// A line with what reading it gave. [`ReadLine::new`] alone makes one.
#[derive(Debug, Drop)]
pub struct ReadLine<'a> {
    line: Line<'a>,
    reading: Result<Command, ReadFault>,
}

impl<'a> Model for ReadLine<'a> {
    ghost use Rattle.command_grammar.specs.Readings.{Reading, reading_told, IsReading};

    ghost Value = { Reading };

    ghost view = { λ read. reading_told read.line read.reading };

    ghost invariant = { λ read. IsReading (reading_told read.line read.reading) };
}

impl<'a> ReadLine<'a> {
    /// Reads a line. Where memory is wanting, that is what reading it gave.
    pub fn new(alloc: Global, line: Line<'a>) -> Self
        ensures { result.line ≡ line_told line.entry }
    {
        let reading = match line {
            Line::Text(text) => read_command(alloc, text),
            Line::TooLong => Err(ReadFault::Line(LineFault::TooLong)),
        };
        ReadLine { line, reading }
    }

    /// The line.
    pub fn line(&self) -> Line<'a>
        ensures { line_told result ≡ self.now.line }
    {
        self.line
    }

    /// The command that it says, or why none is known.
    pub fn reading(&self) -> &Result<Command, ReadFault>
        ensures value { result.now ≡ self.now.reading }

        // It is what this line says.
        ensures says { IsReading self.now }
    {
        &self.reading
    }
}

/// The command that a line says, or its first fault. A line of more than 65,535 bytes is `TooLong`, and isn't looked
/// at. The work grows with the line's length.
pub fn read_command(alloc: Global, line: &[u8]) -> Result<Command, ReadFault>
    ensures { Says (Text line.now) result }
{
    if line.len() > MAX_LINE {
        return Err(ReadFault::Line(LineFault::TooLong));
    }
    let mut words = Tokens::new(line);
    if begins_remark(&words) {
        return Ok(Command::Comment);
    }
    spoken(alloc, &mut words)
}
