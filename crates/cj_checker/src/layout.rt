use crate::axis::Axis;

/// How the objects of a slot are laid out for a sweep: the axis along which it goes, and whether they are cut into stripes across it.
#[derive(Clone, Copy, PartialEq, Eq)]
pub(crate) struct Layout {
    pub axis: Axis,
    pub striped: bool,
}
