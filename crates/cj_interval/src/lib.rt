//! Spans of whole numbers with exact ends, and whole square roots: arithmetic that encloses.
#![tactic(auto)]

mod divisors;
mod fractions;
mod root;
mod span;

pub use divisors::Divisor;
pub use fractions::{Fraction, rounded_up};
pub use root::{isqrt_down, isqrt_up};
pub use span::Span;
