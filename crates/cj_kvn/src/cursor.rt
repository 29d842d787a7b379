//! The lines of a file, one after another.
use crate::lines::{KvnCause, Line};
use crate::raw_line::first_line;
use crate::reading::kind_of;
use crate::text_fault::LineFault;
use std::marker::Model;

/// A place in the bytes of a file where a line begins: the lines from there on are left.
#[derive(Debug, Drop)]
pub struct LineCursor<'a> {
    bytes: &'a [u8],
    at: u32,
    /// How many lines stand before the place.
    number: u32,
}

impl<'a> Model for LineCursor<'a> {
    ghost use Rattle.std.specs.Prelude.{◌^◌, ◌<◌, ◌≤◌, drop, length};
    ghost use Rattle.std.specs.Str.Lines.{lines};
    ghost use Rattle.cj_kvn.specs.Cursors.{LinesLeft};

    ghost Value = { LinesLeft };

    ghost view = { λ c. record { bytes = c.bytes.now; number = c.number; rest = lines (drop c.at c.bytes.now) } };

    ghost invariant = { λ c. (length c.bytes.now < 2 ^ 32) × (c.at ≤ length c.bytes.now) × (c.number ≤ c.at) };
}

impl<'a> LineCursor<'a> {
    ghost use Rattle.std.specs.Prelude.{◌≡◌, ◌^◌, ◌<◌, length};
    ghost use Rattle.cj_kvn.specs.Cursors.{Follows, HaveForms, all_lines};

    /// All lines of a file are left.
    pub fn new(bytes: &'a [u8]) -> Self
        requires { length bytes.now < 2 ^ 32 }
        ensures { result ≡ all_lines bytes.now }
    {
        LineCursor {
            bytes,
            at: 0,
            number: 0,
        }
    }

    /// Goes on by a line: the next one, and nothing where none is left.
    pub fn next_line(&mut self) -> Result<Option<Line>, LineFault<KvnCause>>
        ensures { Follows self.old result self.new }
    {
        if self.at as usize == self.bytes.len() {
            return Ok(None);
        }
        let (line, behind) = first_line(self.bytes, self.at);
        let number = self.number + 1;
        let kind = kind_of(self.bytes, line, number)?;
        self.at = behind;
        self.number = number;
        Ok(Some(Line { number, kind }))
    }

    /// Whether all lines that are left have a form.
    pub fn check_rest(self) -> Result<(), LineFault<KvnCause>>
        ensures { HaveForms result self.entry }
    {
        let mut rest = self;
        while let Some(_) = rest.next_line()? {}
        Ok(())
    }
}
