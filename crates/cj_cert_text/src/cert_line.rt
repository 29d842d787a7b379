use crate::rank::Rank;
use cj_base::Window;
use cj_cert::{BoxLine, CellLine, ShellLine, SizeOfLine};

/// What a line says.
#[derive(Clone, Copy)]
pub(crate) enum CertLine {
    Heading,
    Window(Window),
    Threshold(u64),
    Objects(u32),
    Size(SizeOfLine),
    /// The number of a primary.
    Primary(u32),
    Shell(ShellLine),
    Box(BoxLine),
    Cell(CellLine),
    End,
}

impl CertLine {
    ghost use Rattle.std.specs.Prelude.{◌≡◌};
    ghost use Rattle.cj_cert_text.specs.Lines.{rank_of};
    ghost use Rattle.cj_cert_text.specs.Readers.{plain_line};

    /// What the line is about.
    pub(crate) fn rank(self) -> Rank
        ensures { result ≡ rank_of (plain_line self) }
    {
        match self {
            CertLine::Heading => Rank::Heading,
            CertLine::Window(_) => Rank::Window,
            CertLine::Threshold(_) => Rank::Threshold,
            CertLine::Objects(_) => Rank::Objects,
            CertLine::Size(_) => Rank::Size,
            CertLine::Primary(_) => Rank::Primary,
            CertLine::Shell(_) => Rank::Shell,
            CertLine::Box(_) => Rank::Box,
            CertLine::Cell(_) => Rank::Cell,
            CertLine::End => Rank::End,
        }
    }
}
