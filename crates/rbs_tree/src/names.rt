ghost use Rattle.std.specs.Prelude.{◌≡◌, ◌↔◌, IsTrue, IfOk};

use crate::{copy_texts, same_texts};
use src_text::{Mem, Seq, Span, Text};
use std::alloc::Global;

/// The name of a class, a module, an interface or a type alias.
///
/// A name that was resolved is absolute, and its span is that from 0 to 0.
#[derive(Debug, Drop, PartialEq, Eq)]
pub struct TypeName {
    /// Whether `::` stands before the first word.
    pub absolute: bool,
    /// The words between the `::`, the last being the name's own.
    pub path: Seq<Text>,
    /// Where the name stands in its file.
    pub at: Span,
}

/// A copy of a name.
pub fn copy_name(alloc: Global, name: &TypeName) -> Mem<TypeName>
    ensures { IfOk result (λ copy. copy ≡ name.now) }
{
    let path = copy_texts(alloc, name.path.as_slice())?;
    Ok(TypeName {
        absolute: name.absolute,
        path,
        at: name.at,
    })
}

/// Whether two names have the same words, are both absolute or both not, and stand at the same place.
pub fn same_name(a: &TypeName, b: &TypeName) -> bool
    ensures { IsTrue result ↔ (a.now ≡ b.now) }
{
    a.absolute == b.absolute && a.at == b.at && same_texts(a.path.as_slice(), b.path.as_slice())
}
