/// How far an object reaches along an axis by its box, or by its shell: down with the object's size, up with its size and the
/// threshold. So two objects are apart along the axis by at most their pair's threshold where each begins, by `low`, at most at the
/// end of the other, by `high`. Where objects are cut into stripes, both ends are moved to one of them.
#[derive(Clone, Copy, PartialEq, Eq, PartialOrd, Ord)]
pub(crate) struct Reach {
    pub low: i128,
    pub high: i128,
    pub object: u32,
}
