//! The printable bytes of lines, and the plain ones: those that are no equals sign.
ghost use Rattle.std.specs.Prelude.{◌≡◌, ◌≤◌, length};
ghost use Rattle.std.specs.List.{prefix_len};
ghost use Rattle.cj_kvn.specs.Lines.{is_printable as the_printable_test};
ghost use Rattle.cj_kvn.specs.RawLines.{is_plain as the_plain_test};

/// A plain byte stands at its own place, and an equals sign at every other place.
static PLAIN: [u8; 256] = *b"\
    =========\t======================\
    \x20!\"#$%&'()*+,-./0123456789:;<=>?\
    @ABCDEFGHIJKLMNOPQRSTUVWXYZ[\\]^_\
    `abcdefghijklmnopqrstuvwxyz{|}~=\
    ================================\
    ================================\
    ================================\
    ================================";

fn is_plain(byte: u8) -> bool
    ensures { result ≡ the_plain_test byte }
{
    PLAIN[byte as usize] != b'='
}

/// How many plain bytes stand at the front.
pub fn plain_len(text: &[u8]) -> usize
    ensures count { result ≡ prefix_len the_plain_test text.now }
    ensures short { result ≤ length text.now }
{
    let mut len = 0;
    while len < text.len() && is_plain(text[len]) {
        len += 1;
    }
    len
}

/// A tab, or from the space to the tilde.
fn is_printable(byte: u8) -> bool
    ensures { result ≡ the_printable_test byte }
{
    byte == b'\t' || 32 <= byte && byte <= 126
}

/// How many printable bytes stand at the front.
pub fn printable_len(text: &[u8]) -> usize
    ensures count { result ≡ prefix_len the_printable_test text.now }
    ensures short { result ≤ length text.now }
{
    let mut len = 0;
    while len < text.len() && is_printable(text[len]) {
        len += 1;
    }
    len
}
