/// A stage of a run. It has parts, and it is told how many of them are done.
#[derive(Clone, Copy, Debug, PartialEq, Eq)]
pub enum Stage {
    /// Files are read; each is a part.
    Files,
    /// Objects are measured; each is a part.
    Objects,
    /// The minutes of the window are searched for pairs that may come near; each is a part.
    Minutes,
    /// Cells are halved; each root is a part.
    Cells,
    /// The closest approach of each encounter is searched; each is a part.
    Encounters,
}
