//! International designators.
ghost use Rattle.std.specs.Prelude.{◌≡◌};
ghost use Rattle.std.specs.Char.{is_ascii_digit, is_ascii_uppercase};
ghost use Rattle.std.specs.List.{list_all};
ghost use Rattle.cj_cdm.specs.Designators as spec;

/// The designator itself where it is an international one, and else `UNKNOWN`.
#[tactic(auto, unfolding(crate::specs::Designators::designator_of))]
pub(crate) fn designator_of(id: &[u8]) -> &[u8]
    ensures { result.now ≡ spec.designator_of id.now }
{
    if is_designator(id) { id } else { b"UNKNOWN" }
}

/// The year of a launch, its number in that year, and the piece, as `YYYY-NNNP`.
#[tactic(auto, unfolding(crate::specs::Designators::is_designator))]
pub(crate) fn is_designator(text: &[u8]) -> bool
    ensures { result ≡ spec.is_designator text.now }
{
    text.len() >= 9
        && are_digits(&text[..4])
        && text[4] == b'-'
        && are_digits(&text[5..8])
        && is_launch_piece(&text[8..])
}

fn are_digits(text: &[u8]) -> bool
    ensures { result ≡ list_all is_ascii_digit text.now }
{
    text.iter().all(u8::is_ascii_digit)
}

/// One to three letters.
fn is_launch_piece(text: &[u8]) -> bool
    ensures { result ≡ spec.is_launch_piece text.now }
{
    1 <= text.len() && text.len() <= 3 && are_uppercase(text)
}

fn are_uppercase(text: &[u8]) -> bool
    ensures { result ≡ list_all is_ascii_uppercase text.now }
{
    text.iter().all(u8::is_ascii_uppercase)
}
