use crate::hints::Hint;

/// Where a piece of a track was found: its number among all pieces, its segment, and the node of that from which it goes.
#[derive(Clone, Copy)]
pub struct FoundPiece {
    pub index: u32,
    pub segment: u32,
    pub node: u32,
}

impl FoundPiece {
    /// Where to look for it, or for one soon behind it.
    pub fn hint(self) -> Hint {
        Hint {
            segment: self.segment,
            node: self.node,
        }
    }
}
