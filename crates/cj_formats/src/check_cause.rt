//! Why a certificate is not accepted.

/// Why a certificate is not accepted.
#[derive(Clone, Copy, Debug, PartialEq, Eq)]
pub enum CheckCause {
    /// It was made for another window, threshold or number of objects.
    Header,
    /// The size of an object is not the one given.
    SizeOf,
    /// The primaries are not those that are named.
    PrimaryOf,
    /// The radii of an object are not shown by its hulls, or its line does not stand in its place.
    ShellOf,
    /// The hulls of an object reach out of its box, or the line of a box does not stand in its place.
    BoxOf,
    /// Ticks of a root that no cell has.
    Untiled,
    /// A cell that is not to be there.
    Stranger,
    /// A cell is listed as far, which its hulls do not show.
    NotFar,
    /// A cell is listed as near, which its hulls do not show.
    NotNear,
    /// A cell is listed as undecided, which its hulls do not show.
    NotBand,
}
