ghost use Rattle.std.specs.Prelude.{◌≡◌, ◌↔◌, IsTrue, IfOk};

use src_text::{Mem, Seq, Text};
use std::alloc::Global;

/// A copy of a list of texts.
pub fn copy_texts(alloc: Global, texts: &[Text]) -> Mem<Seq<Text>>
    ensures { IfOk result (λ copy. copy ≡ texts.now) }
{
    let mut copy = Seq::new(alloc);
    for text in texts {
        copy.push(text.clone()?)?;
    }
    Ok(copy)
}

/// A copy of a text that may be absent.
pub fn copy_optional_text(text: &Option<Text>) -> Mem<Option<Text>>
    ensures { IfOk result (λ copy. copy ≡ text.now) }
{
    match text {
        None => Ok(None),
        Some(text) => Ok(Some(text.clone()?)),
    }
}

/// Whether two lists of texts are the same.
pub fn same_texts(a: &[Text], b: &[Text]) -> bool
    ensures { IsTrue result ↔ (a.now ≡ b.now) }
{
    if a.len() != b.len() {
        return false;
    }
    for (i, text) in a.iter().enumerate() {
        if !same_text(text, &b[i]) {
            return false;
        }
    }
    true
}

fn same_text(a: &Text, b: &Text) -> bool
    ensures { IsTrue result ↔ (a.now ≡ b.now) }
{
    a == b
}
