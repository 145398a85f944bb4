ghost use Rattle.std.specs.Prelude.{◌≡◌, [], ◌∷◌, ◌++◌, IfOk};
ghost use Rattle.sig_rules.specs.Declarations.{full_name, full_path, innermost};

use rbs_tree::{TypeName, copy_name, copy_texts};
use src_text::{Mem, Seq, Span, Text};
use std::alloc::Global;

/// The words of the innermost enclosing name.
#[tactic(auto, using(crate::proofs::WalkLemmas::innermost_last))]
pub(crate) fn innermost_words(context: &[TypeName]) -> &[Text]
    ensures { result.now ≡ innermost context.now }
{
    match context {
        [] => &[],
        [.., last] => last.path.as_slice(),
    }
}

/// The words that a full name has before those that are written.
pub(crate) fn words_before<'a>(context: &'a [TypeName], name: &TypeName) -> &'a [Text]
    ensures { result.now ++ name.now.path ≡ full_path context.now name.now }
{
    if name.absolute {
        &[]
    } else {
        innermost_words(context)
    }
}

/// The words of two lists, one behind the other.
pub(crate) fn joined_words(alloc: Global, front: &[Text], back: &[Text]) -> Mem<Seq<Text>>
    ensures { IfOk result (λ words. words ≡ front.now ++ back.now) }
{
    let mut words = copy_texts(alloc, front)?;
    for word in back {
        words.push(word.clone()?)?;
    }
    Ok(words)
}

/// The full name with the words of two lists, one behind the other.
pub fn joined_name(alloc: Global, front: &[Text], back: &[Text]) -> Mem<TypeName>
    ensures { IfOk result (λ name. name ≡ full_name (front.now ++ back.now)) }
{
    Ok(full_name(joined_words(alloc, front, back)?))
}

/// The full name with these words.
pub(crate) fn full_name(path: Seq<Text>) -> TypeName
    ensures { result ≡ full_name path }
{
    TypeName {
        absolute: true,
        path,
        at: Span { start: 0, end: 0 },
    }
}

/// The enclosing names of what is declared in a declaration of this name.
pub(crate) fn inner_context(
    alloc: Global,
    context: &[TypeName],
    name: &TypeName,
) -> Mem<Seq<TypeName>>
    ensures { IfOk result (λ inner. inner ≡ context.now ++ full_name (full_path context.now name.now) ∷ []) }
{
    let mut inner = copy_names(alloc, context)?;
    let path = joined_words(alloc, words_before(context, name), name.path.as_slice())?;
    inner.push(full_name(path))?;
    Ok(inner)
}

/// A copy of a list of names.
pub fn copy_names(alloc: Global, names: &[TypeName]) -> Mem<Seq<TypeName>>
    ensures { IfOk result (λ copy. copy ≡ names.now) }
{
    let mut copy = Seq::new(alloc);
    for name in names {
        copy.push(copy_name(alloc, name)?)?;
    }
    Ok(copy)
}
