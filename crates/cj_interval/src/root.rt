//! Whole square roots.
ghost use Rattle.std.specs.Prelude.{◌≡◌, ℕ, ◌+◌, ◌*◌, ◌^◌, ◌<◌, ◌≤◌};

/// The greatest root that is asked for.
const MOST: u64 = 1 << 63;

/// The greatest whole number whose square is at most `n`.
pub fn isqrt_down(n: u128) -> u64
    requires { n ≤ 2 ^ 126 }
    ensures below { result * result ≤ n }
    ensures next { n < (result + 1) * (result + 1) }
{
    let mut root = root_within(n, near_root(n));
    while square(root + 1) <= n {
        root += 1;
    }
    root
}

/// The least whole number whose square is at least `n`.
pub fn isqrt_up(n: u128) -> u64
    requires { n ≤ 2 ^ 126 }
    ensures above { n ≤ result * result }
    ensures least { (r : ℕ) → n ≤ r * r → result ≤ r }
{
    let root = isqrt_down(n);
    if square(root) == n { root } else { root + 1 }
}

fn square(root: u64) -> u128
    ensures { result ≡ root * root }
{
    u128::from(root) * u128::from(root)
}

/// A number near the root of `n`: a step of Newton's method from the root of the leading bits.
fn near_root(n: u128) -> u64
    requires { n ≤ 2 ^ 126 }
    ensures { result ≤ MOST }
{
    let half = 33_u32.saturating_sub(n.leading_zeros() / 2);
    let leading = u64::try_from(n >> (2 * half)).unwrap_or(u64::MAX);
    let first = u128::from((leading.isqrt() << half).max(1));
    let next = (first + n / first) / 2;
    next.min(u128::from(MOST)) as u64
}

/// `guess`, or the greatest number below it whose square is at most `n`.
fn root_within(n: u128, guess: u64) -> u64
    ensures below { result * result ≤ n }
    ensures least { result ≤ guess }
{
    let mut root = guess;
    while n < square(root) {
        root -= 1;
    }
    root
}
