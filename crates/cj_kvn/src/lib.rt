//! Lines, fields and numbers of texts in key-value notation.
#![tactic(auto)]

mod blanks;
mod cursor;
mod digits;
mod entries;
mod fields;
mod leading;
mod lines;
mod numbers;
mod originator;
mod plain;
mod powers;
mod printing;
mod range;
mod raw_line;
mod reading;
mod rounded;
mod rounding;
mod scaling;
mod scanning;
mod text_fault;
mod words;

pub use cursor::LineCursor;
pub use digits::{has_digits_alone, number_from_digits};
pub use entries::{push_entry, push_line};
pub use fields::{RowFields, field, row_fields};
pub use lines::{KvnCause, KvnFault, Line, LineKind, MarkKind};
pub use numbers::{NumFault, read_scaled};
pub use originator::is_originator;
pub use printing::decimal_text;
pub use range::Range32;
pub use reading::read_lines;
pub use rounding::read_decimal;
pub use text_fault::{LineFault, Refused, TextFault};
