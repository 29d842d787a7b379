use cj_case::Pair;

/// Of which pairs the candidates are sought.
#[derive(Clone, Copy)]
pub enum Sought<'s> {
    /// Of all pairs of objects.
    All,
    /// Of these.
    These(&'s [Pair]),
}
