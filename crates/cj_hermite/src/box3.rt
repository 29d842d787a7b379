use cj_interval::Span;

/// A span on each axis, in nm or in nm/s.
#[derive(Clone, Copy, Debug, PartialEq, Eq)]
pub struct Box3 {
    pub x: Span,
    pub y: Span,
    pub z: Span,
}
