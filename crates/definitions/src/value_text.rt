ghost use Rattle.std.specs.Prelude.{◌≡◌, [], ◌∷◌, IfOk};
ghost use Rattle.sig_rules.specs.Worlds.{path_text, value_text};

use src_text::{Mem, Text};
use std::alloc::Global;
use std::slice;

/// How a constant or a global of this full name is asked for: by `::` before each word, or by its name with the `$`.
pub(crate) fn value_text(alloc: Global, path: &[Text]) -> Mem<Text>
    ensures { IfOk result (λ text. text ≡ value_text path.now) }
{
    match path {
        [word] => word_text(alloc, word),
        words => path_text(alloc, words),
    }
}

// How a full name of one word is asked for.
fn word_text(alloc: Global, word: &Text) -> Mem<Text>
    ensures { IfOk result (λ text. text ≡ value_text (word.now ∷ [])) }
{
    match word.as_str().as_bytes() {
        [b'$', ..] => Ok(word.clone()?),
        _ => path_text(alloc, slice::from_ref(word)),
    }
}

// The words, each behind `::`.
fn path_text(alloc: Global, path: &[Text]) -> Mem<Text>
    ensures { IfOk result (λ text. text ≡ path_text path.now) }
{
    let mut text = Text::new(alloc);
    let mut rest = path;
    while let [word, more @ ..] = rest {
        text.push_str("::")?;
        text.push_str(word.as_str())?;
        rest = more;
    }
    Ok(text)
}
