ghost use Rattle.std.specs.Prelude.{◌≡◌, ◌<◌, [], vec_len, IfOk, All};
ghost use Rattle.std.specs.List.{sum_by};
ghost use Rattle.cj_ledger.specs.Counts.{cut_off, less_a_part, opened};
ghost use Rattle.cj_ledger.specs.Shares.{IsNew, IsOf};

use crate::count::{Count, Opening};
use crate::rule::CutsOff;
use crate::words::{LEAVES, LIVE, WORDS};
use crate::{Ledger, Share};
use atomic_table::{Seat, Table};
use std::alloc::{AllocError, Global};

impl Ledger {
    /// A share with one of the parts of a seat.
    fn part_of(&self, seat: &mut Seat<(), Count>) -> Share
        requires table { seat.old.table_id ≡ self.now.id }
        requires more { 1 < seat.old.me.0.parts }
        ensures table { seat.new.table_id ≡ self.now.id }
        ensures left { seat.new.me ≡ (less_a_part seat.old.me.0, seat.old.me.1) }
        ensures share { result ≡ record { ledger = self.now.id; count = cut_off seat.old.me.0 } }
    {
        Share {
            seat: self.table.shared.split_seat::<CutsOff>(seat),
        }
    }

    /// All shares, from the seat of who opened the ledger.
    fn shares_of(
        &self,
        alloc: Global,
        mut seat: Seat<(), Count>,
        count: u32,
    ) -> Result<Vec<Share>, AllocError>
        requires table { seat.table_id ≡ self.now.id }
        requires opened { seat.me ≡ (opened self.now.opening, []) }
        requires count { (0 < count) × (self.now.opening.shares ≡ count) }
        ensures len { IfOk result (λ made. vec_len made ≡ count) }
        ensures mine { IfOk result (λ made. All (IsOf self.now) made.items) }
        ensures new { IfOk result (λ made. All (IsNew self.now) made.items) }
        ensures roots { IfOk result (λ made. sum_by (λ s. s.count.roots) made.items ≡ self.now.opening.roots) }
    {
        let mut made = Vec::new(alloc);
        for _ in 1..count {
            made.push(self.part_of(&mut seat))?;
        }
        made.push(Share { seat })?;
        Ok(made)
    }

    /// A ledger that counts so many roots as live cells and as leaves, and its shares, which have counted nothing.
    pub fn start(alloc: Global, roots: u64, shares: u32) -> Result<(Ledger, Vec<Share>), AllocError>
        requires { 0 < shares }
        ensures opening { IfOk result (λ r. r.0.opening ≡ record { roots = roots; shares = shares }) }
        ensures len { IfOk result (λ r. vec_len r.1 ≡ shares) }
        ensures mine { IfOk result (λ r. All (IsOf r.0) r.1.items) }
        ensures new { IfOk result (λ r. All (IsNew r.0) r.1.items) }
        ensures roots { IfOk result (λ r. sum_by (λ s. s.count.roots) r.1.items ≡ roots) }
    {
        let opening = Opening {
            roots,
            shares: u64::from(shares),
        };
        let mut words = [0; WORDS];
        words[LIVE] = roots;
        words[LEAVES] = roots;
        let (table, seat) = Table::of_words(alloc, &words, &opening)?;
        let ledger = Ledger { table, opening };
        let made = ledger.shares_of(alloc, seat, shares)?;
        Ok((ledger, made))
    }
}
