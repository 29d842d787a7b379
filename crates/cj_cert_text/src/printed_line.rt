//! The lines of a certificate as text.
ghost use Rattle.std.specs.Prelude.{◌≡◌, ℕ, ◌+◌, ◌++◌, ◌∷◌, [], List, OnOk, codes, pos};
ghost use Rattle.cj_formats.specs.declared.cert_version.CertVersion.{CertVersion};
ghost use Rattle.cj_case.specs.Leaves.{plain_leaf};
ghost use Rattle.cj_cert.specs.Certificates.{plain_box_line, plain_cell_line};
ghost use Rattle.cj_cert_text.specs.Texts.{box_text, cell_text, kind_word as the_word, number, row_ended, shell_text, size_text};

use crate::rows::{push_row, push_row_ended};
use cj_base::Tick;
use cj_case::{Kind, Leaf, Pair};
use cj_cert::{BoxLine, CellLine, ShellLine, SizeOfLine};
use cj_formats::CertVersion;
use std::alloc::AllocError;

/// How long the line of a box can be, and that of a cell.
pub(crate) const BOX_ROOM: usize = 157;

const CELL_ROOM: usize = 51;

/// What has a text in each version: a line, or lines that belong together.
pub(crate) trait PrintedLine {
    /// How many bytes its text has at most.
    fn room(&self) -> usize;

    ghost text_by: { CertVersion → Self → List ℕ };

    /// Adds the line in this version.
    fn push_onto(&self, text: &mut Vec<u8>, version: CertVersion) -> Result<(), AllocError>
        ensures { OnOk result (text.new.items ≡ text.old.items ++ text_by version self.now) };
}

impl PrintedLine for SizeOfLine {
    ghost text_by = { λ _ s. size_text s };

    fn room(&self) -> usize {
        24
    }

    fn push_onto(&self, text: &mut Vec<u8>, _version: CertVersion) -> Result<(), AllocError> {
        let size = i128::from(self.size);
        push_row(text, b"SIZE", &[number_of(self.object), size])
    }
}

impl PrintedLine for ShellLine {
    ghost text_by = { λ _ s. shell_text s };

    fn room(&self) -> usize {
        51
    }

    fn push_onto(&self, text: &mut Vec<u8>, _version: CertVersion) -> Result<(), AllocError> {
        let object = number_of(self.object);
        match self.shell {
            None => push_row_ended(text, b"SHELL", &[object], b"NONE"),
            Some(shell) => {
                let lo = i128::from(shell.lo);
                let hi = i128::from(shell.hi);
                push_row(text, b"SHELL", &[object, lo, hi])
            }
        }
    }
}

impl PrintedLine for BoxLine {
    ghost text_by = { λ version b. box_text version (plain_box_line b) };

    fn room(&self) -> usize {
        BOX_ROOM
    }

    fn push_onto(&self, text: &mut Vec<u8>, version: CertVersion) -> Result<(), AllocError> {
        let object = number_of(self.object);
        let (first, last) = (i128::from(self.first), i128::from(self.last));
        let (least, most) = (self.area.least, self.area.most);
        let (x_least, x_most) = (i128::from(least.x), i128::from(most.x));
        let (y_least, y_most) = (i128::from(least.y), i128::from(most.y));
        let (z_least, z_most) = (i128::from(least.z), i128::from(most.z));
        match version {
            CertVersion::One => push_row(
                text,
                b"BOX",
                &[
                    object, first, x_least, x_most, y_least, y_most, z_least, z_most,
                ],
            ),
            CertVersion::Two => push_row(
                text,
                b"BOX",
                &[
                    object, first, last, x_least, x_most, y_least, y_most, z_least, z_most,
                ],
            ),
        }
    }
}

impl PrintedLine for CellLine {
    ghost text_by = { λ _ c. cell_text (plain_cell_line c) };

    fn room(&self) -> usize {
        CELL_ROOM
    }

    fn push_onto(&self, text: &mut Vec<u8>, _version: CertVersion) -> Result<(), AllocError> {
        push_cell(text, self.pair, self.first, self.last, self.kind)
    }
}

impl PrintedLine for Leaf {
    ghost text_by = { λ _ leaf. cell_text (plain_leaf leaf) };

    fn room(&self) -> usize {
        CELL_ROOM
    }

    fn push_onto(&self, text: &mut Vec<u8>, _version: CertVersion) -> Result<(), AllocError> {
        let cell = self.cell;
        push_cell(text, cell.pair, cell.first, cell.last, self.kind)
    }
}

/// Adds the line of what a pair is at the ticks from the first to the last.
fn push_cell(
    text: &mut Vec<u8>,
    pair: Pair,
    first: Tick,
    last: Tick,
    kind: Kind,
) -> Result<(), AllocError>
    ensures { OnOk result (text.new.items ≡ text.old.items ++ row_ended (codes "CELL") (number pair.a ∷ number pair.b ∷ pos first.micros ∷ pos last.micros ∷ []) (the_word kind)) }
{
    let numbers = [
        number_of(pair.a),
        number_of(pair.b),
        i128::from(first.micros),
        i128::from(last.micros),
    ];
    push_row_ended(text, b"CELL", &numbers, kind_word(kind))
}

/// The number of an object in a text, where they are counted from 1.
pub(crate) fn number_of(object: u32) -> i128
    ensures { result ≡ pos (object + 1) }
{
    i128::from(object) + 1
}

fn kind_word(kind: Kind) -> &'static [u8]
    ensures { result.now ≡ the_word kind }
{
    match kind {
        Kind::Far => b"F",
        Kind::Near => b"N",
        Kind::Undecided => b"U",
    }
}
