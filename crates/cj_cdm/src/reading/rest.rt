//! What is left of a message that is read line by line.
ghost use Rattle.std.specs.Prelude.{◌+◌, ◌^◌, ◌≤◌, length};

/// What is left of a message, and the number of its next line.
#[derive(Clone, Copy)]
pub(crate) struct Rest<'a> {
    pub(crate) text: &'a [u8],
    pub(crate) line: u32,
    pub(crate) ghost begun: { 1 ≤ line },
    pub(crate) ghost counted: { line + length text.now ≤ 2 ^ 32 },
}
