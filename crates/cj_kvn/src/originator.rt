ghost use Rattle.std.specs.Prelude.{◌≡◌};
ghost use Rattle.std.specs.List.{list_all};
ghost use Rattle.cj_kvn.specs.Originators as spec;

/// Whether a text can say who makes messages: 1 to 40 letters, digits, `_` and `-`.
#[tactic(auto, unfolding(crate::specs::Originators::is_originator))]
pub fn is_originator(text: &[u8]) -> bool
    ensures { result ≡ spec.is_originator text.now }
{
    1 <= text.len() && text.len() <= 40 && are_originator_bytes(text)
}

fn are_originator_bytes(text: &[u8]) -> bool
    ensures { result ≡ list_all spec.is_originator_byte text.now }
{
    text.iter()
        .all(|b| b.is_ascii_alphanumeric() || *b == b'_' || *b == b'-')
}
