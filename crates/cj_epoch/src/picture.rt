ghost use Rattle.std.specs.Prelude.{◌≡◌};
ghost use Rattle.cj_epoch.specs.Picture as spec;

/// Whether a text begins as the picture shows, where each letter but `T` stands for a digit.
pub fn begins_like(picture: &[u8], text: &[u8]) -> bool
    ensures { result ≡ spec.begins_like picture.now text.now }
{
    picture.len() <= text.len() && is_like(picture, text)
}

/// Whether a text is as the picture shows, as far as both go.
fn is_like(picture: &[u8], text: &[u8]) -> bool
    ensures { result ≡ spec.is_like picture.now text.now }
{
    picture
        .iter()
        .zip(text)
        .all(|(sign, byte)| stands_for(*sign, *byte))
}

/// Whether a byte may stand in the place of this sign of a picture.
fn stands_for(sign: u8, byte: u8) -> bool
    ensures { result ≡ spec.stands_for sign byte }
{
    if sign.is_ascii_alphabetic() && sign != b'T' {
        byte.is_ascii_digit()
    } else {
        byte == sign
    }
}
