use crate::count::Count;
use atomic_table::Seat;
use std::marker::Model;

/// What a worker counts with. It takes no bytes. Contracts see which ledger it is of, and what it has counted.
#[derive(Drop)]
pub struct Share {
    pub(crate) seat: Seat<(), Count>,
}

impl Model for Share {
    ghost use Rattle.std.specs.Prelude.{◌≡◌, []};
    ghost use Rattle.cj_ledger.specs.Shares.{ShareSeen};

    ghost Value = { ShareSeen };

    ghost view = { λ s. record { ledger = s.seat.table_id; count = s.seat.me.0 } };

    ghost invariant = { λ s. (s.seat.me.0.parts ≡ 1) × (s.seat.me.0.firsts ≡ s.seat.me.0.seconds) × (s.seat.me.1 ≡ []) };
}
