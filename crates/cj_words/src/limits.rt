//! How much a run may take: one over a whole sky more than any other.
ghost use Rattle.std.specs.Prelude.{◌≡◌, ◌≤◌};
ghost use Rattle.cj_base.specs.Limits.{plain_limits};
ghost use Rattle.cj_words.specs.Limits as spec;
ghost use Rattle.cj_words.specs.Limits.{MOST_CERTIFICATE_BYTES};

use cj_base::{Limits, MOST_LEAVES, MOST_NODES, MOST_OBJECT_SLOTS};

/// How much a run over a whole sky may take.
pub const LARGE: Limits = Limits {
    objects: 50_000,
    nodes: MOST_NODES,
    object_slots: MOST_OBJECT_SLOTS,
    leaves: MOST_LEAVES,
};

/// How much a run may take.
pub fn limits_of(large: bool) -> Limits
    ensures { plain_limits result ≡ spec.limits_of large }
{
    if large { LARGE } else { Limits::USUAL }
}

/// The most leaves that its certificate tells in brief.
pub fn most_told(large: bool) -> u64
    ensures { result ≡ spec.most_told large }
{
    if large { 80_000_000 } else { 4_000_000 }
}

/// The most bytes of a certificate that is checked, and of a report.
pub fn most_certificate_bytes(large: bool) -> u64
    ensures value { result ≡ spec.most_certificate_bytes large }
    ensures most { result ≤ MOST_CERTIFICATE_BYTES }
{
    if large { 4_294_967_290 } else { 1_073_741_824 }
}
