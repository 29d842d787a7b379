use crate::pieces::Piece;
use cj_base::Window;

/// A run of ticks at which a track is at one piece, with the piece and its number.
#[derive(Clone, Copy, Debug, PartialEq, Eq)]
pub struct PieceRun {
    pub ticks: Window,
    pub index: u32,
    pub piece: Piece,
}
