ghost use Rattle.std.specs.Prelude.{◌≡◌, ◌∷◌, ◌++◌, map, OnOk};
ghost use Rattle.cj_kvn.specs.Entries.{line_of_words};

use std::alloc::AllocError;

/// Adds a line to the text: a first word, and more words with a space before each.
pub(crate) fn push_line(text: &mut Vec<u8>, word: &[u8], more: &[&[u8]]) -> Result<(), AllocError>
    ensures { OnOk result (text.new.items ≡ text.old.items ++ line_of_words (word.now ∷ map (λ w. w.now) more.now)) }
{
    text.extend_from_slice(word)?;
    for next in more {
        text.push(b' ')?;
        text.extend_from_slice(next)?;
    }
    text.push(b'\n')?;
    Ok(())
}
