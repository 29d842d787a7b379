/// What all shares of a ledger counted together, modulo 2^64.
#[derive(Clone, Copy, Debug, PartialEq, Eq)]
pub struct Totals {
    pub roots: u64,
    pub splits: u64,
    pub closes: u64,
}
