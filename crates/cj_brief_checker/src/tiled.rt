use cj_checker::CellFault;

/// What comes of the cells of a slot from a place on: the place behind those that tile the slot's roots, or the first that fails.
#[derive(Clone, Copy)]
pub(crate) struct Tiled {
    pub from: usize,
    pub found: Result<usize, CellFault>,
}
