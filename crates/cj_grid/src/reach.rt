/// How far an object reaches along an axis by its box: down with the object's size, up with its size and the threshold. So the boxes of
/// two objects are apart along the axis by at most their pair's threshold where each begins, by `low`, at most at the end of the other,
/// by `high`. One whose reach is no longer than others may be begins at `earliest` or behind if it ends where the object begins or behind.
#[derive(Clone, Copy, PartialEq, Eq, PartialOrd, Ord)]
pub struct Reach {
    pub low: i128,
    pub high: i128,
    pub earliest: i128,
    pub object: u32,
}
