/// What a report tells beside the encounters.
#[derive(Clone, Copy, Debug, PartialEq, Eq)]
pub struct Tells {
    /// The sizes of objects.
    pub sizes: bool,
    /// Which ticks of the window each object covers.
    pub coverage: bool,
}
