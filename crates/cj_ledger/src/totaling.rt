ghost use Rattle.std.specs.Prelude.{◌≡◌, ◌%◌, ◌^◌, vec_len, All};
ghost use Rattle.std.specs.List.{sum_by};
ghost use Rattle.cj_ledger.specs.Shares.{IsOf};

use crate::plays::{LoadsLeaves, LoadsLive};
use crate::rule::TakesIn;
use crate::words::{LEAVES, LIVE};
use crate::{Ledger, Share, Totals};

impl Ledger {
    /// What all shares have counted together.
    pub fn total(self, mut shares: Vec<Share>) -> Totals
        requires mine { All (IsOf self) shares.items }
        requires all { vec_len shares ≡ self.opening.shares }
        ensures given { result.roots ≡ self.opening.roots }
        ensures roots { result.roots ≡ sum_by (λ s. s.count.roots) shares.items }
        ensures splits { result.splits ≡ sum_by (λ s. s.count.firsts) shares.items % 2 ^ 64 }
        ensures closes { result.closes ≡ sum_by (λ s. s.count.closes) shares.items % 2 ^ 64 }
    {
        let Some(first) = shares.pop() else {
            unreachable!()
        };
        let Share { mut seat } = first;
        while let Some(share) = shares.pop() {
            let Share { seat: other } = share;
            self.table.shared.join_seat::<TakesIn>(&mut seat, other);
        }
        let live = self.table.shared.load::<LoadsLive>(&mut seat, LIVE);
        let leaves = self.table.shared.load::<LoadsLeaves>(&mut seat, LEAVES);
        let roots = self.opening.roots;
        let splits = leaves.wrapping_sub(roots);
        Totals {
            roots,
            splits,
            closes: leaves.wrapping_sub(live),
        }
    }
}
