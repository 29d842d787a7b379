use crate::pieces::Piece;
use cj_base::Window;

/// A run of ticks at which each of two tracks is at one piece, with the two pieces.
#[derive(Clone, Copy, Debug, PartialEq, Eq)]
pub struct CommonRun {
    pub ticks: Window,
    pub first: Piece,
    pub second: Piece,
}
