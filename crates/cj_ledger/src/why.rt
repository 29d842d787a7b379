/// Why the workers are to stop: there are more cells than the limit, or a worker found no memory.
#[derive(Clone, Copy, Debug, PartialEq, Eq)]
pub enum Why {
    Cells,
    Memory,
}
