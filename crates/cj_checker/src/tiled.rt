use crate::cell_fault::CellFault;

/// What comes of the cells of some keys from a place on: the place behind those that tile the roots of the keys, or the first that fails.
#[derive(Clone, Copy)]
pub(crate) struct Tiled {
    pub from: usize,
    pub found: Result<usize, CellFault>,
}
