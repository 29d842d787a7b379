//! The parts of a text between bytes of one kind.
ghost use Rattle.std.specs.Prelude.{◌≡◌, ◌+◌, ◌∷◌, ◌==◌, [], length, IfSome, MatchOption};
ghost use Rattle.std.specs.List.{position, slice_split};

use memchr::memchr;

/// What stands before the first such byte, and what stands behind it.
pub(crate) fn split_at_byte(text: &[u8], byte: u8) -> Option<(&[u8], &[u8])>
    ensures parts { MatchOption result (slice_split (λ b. b == byte) text.now ≡ text.now ∷ [])
        (λ parts. slice_split (λ b. b == byte) text.now ≡ parts.0.now ∷ slice_split (λ b. b == byte) parts.1.now) }
    ensures lengths { IfSome result (λ parts. length parts.0.now + 1 + length parts.1.now ≡ length text.now) }
{
    let place = place_of(text, byte)?;
    Some((&text[..place], &text[place + 1..]))
}

fn place_of(text: &[u8], byte: u8) -> Option<usize>
    ensures { result ≡ position (λ b. b == byte) text.now }
{
    memchr(byte, text)
}

/// The words of a line that are left, with a space between them.
#[derive(Clone, Copy)]
pub(crate) struct Words<'a> {
    rest: Option<&'a [u8]>,
}

impl<'a> Words<'a> {
    ghost use Rattle.std.specs.Prelude.{◌≡◌, [], ◌∷◌, ◌==◌, None, IfSome, MatchOption, length};
    ghost use Rattle.std.specs.List.{slice_split};
    ghost use Rattle.cj_cert_text.specs.Readers.{words_in};

    /// The words of a line.
    pub(crate) fn of(line: &'a [u8]) -> Self
        ensures { words_in result.rest ≡ slice_split (λ b. b == 32) line.now }
    {
        Words { rest: Some(line) }
    }

    /// The first word, and those behind it.
    pub(crate) fn first(self) -> Option<(&'a [u8], Words<'a>)>
        ensures { MatchOption result (words_in self.entry.rest ≡ []) (λ w. words_in self.entry.rest ≡ w.0.now ∷ words_in w.1.rest) }
    {
        let text = self.rest?;
        match split_at_byte(text, b' ') {
            Some((word, rest)) => Some((word, Words { rest: Some(rest) })),
            None => Some((text, Words { rest: None })),
        }
    }

    pub(crate) fn is_empty(self) -> bool
        ensures { result ≡ (length (words_in self.entry.rest) == 0) }
    {
        self.rest.is_none()
    }
}
