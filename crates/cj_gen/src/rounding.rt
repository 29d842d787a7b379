ghost use Rattle.std.specs.Prelude.{◌≡◌, ◌<◌, ◌^◌};
ghost use Rattle.cj_interval.specs.Rounding.{floor_div};
ghost use Rattle.cj_interval.specs.Sizes.{IsWithin};

/// `z / by`, rounded down.
pub(crate) fn quotient(z: i64, by: u16) -> i64
    requires some { 0 < by }
    requires within { IsWithin (2 ^ 62) z }
    ensures { result ≡ floor_div z by }
{
    z.div_euclid(i64::from(by))
}
