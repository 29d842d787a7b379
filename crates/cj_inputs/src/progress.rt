use crate::batch::Batch;
use crate::taken::Taken;

/// The tracks of the first files, and the batch of those behind them that was read and is still to be parsed.
#[derive(Drop)]
pub struct Progress<'a> {
    pub taken: Taken,
    pub batch: Batch<'a>,
}
