/// How far the lines of boxes were read: how many pass, and whether the one behind them fails.
#[derive(Clone, Copy)]
pub(crate) struct BoxesRead {
    pub passed: usize,
    pub failed: bool,
}

/// What was read of an object, from a place of the lines of boxes on. Nothing where its line has not its shell.
#[derive(Clone, Copy)]
pub(crate) struct ObjectRead {
    pub from: usize,
    pub more: Option<BoxesRead>,
}
