ghost use Rattle.std.specs.Prelude.{◌≡◌, [], ◌∷◌, ◌++◌, map, Option, IfOk, OnOk, OnErr};
ghost use Rattle.std.specs.Option.{option_copied, option_map};
ghost use Rattle.sig_rules.specs.Declarations.{Path, full_name};
ghost use Rattle.sig_rules.specs.Names.{candidates, first_that, is_head, resolve, tried, tried_relative, up_to, whole_asked};
ghost use Rattle.name_resolver.specs.Noting.{NotesFirst};

use crate::resolution::{head_in, resolve};
use rbs_tree::{TypeName, copy_name};
use sig_rules::{Table, joined_name};
use src_text::{Mem, Seq, Text};
use std::alloc::Global;
use std::slice;

/// A copy of the full name that a name stands for, as [`resolve`] gives it. The full names that are asked on the way are put at the end
/// of `noted`; where memory is short, perhaps only the first of them.
pub fn resolve_noted(
    alloc: Global,
    table: &Table,
    context: &[TypeName],
    name: &TypeName,
    noted: &mut Seq<TypeName>,
) -> Mem<Option<TypeName>>
    ensures found { IfOk result (λ found. found ≡ option_map full_name (resolve table.now context.now name.now)) }
    ensures noted { OnOk result (noted.new ≡ noted.old ++ map full_name (tried table.now context.now name.now)) }
    ensures err { OnErr result (NotesFirst (tried table.now context.now name.now) noted.old noted.new) }
{
    note_tried(alloc, table, context, name, noted)?;
    copied(alloc, resolve(table, context, name))
}

// A copy of a name that may be absent.
fn copied(alloc: Global, name: Option<&TypeName>) -> Mem<Option<TypeName>>
    ensures { IfOk result (λ copy. copy ≡ option_copied name.entry) }
{
    match name {
        None => Ok(None),
        Some(name) => Ok(Some(copy_name(alloc, name)?)),
    }
}

// Notes the names that are asked.
fn note_tried(
    alloc: Global,
    table: &Table,
    context: &[TypeName],
    name: &TypeName,
    noted: &mut Seq<TypeName>,
) -> Mem<()>
    ensures ok { OnOk result (noted.new ≡ noted.old ++ map full_name (tried table.now context.now name.now)) }
    ensures err { OnErr result (NotesFirst (tried table.now context.now name.now) noted.old noted.new) }
{
    if name.absolute {
        note(alloc, &[], name.path.as_slice(), noted)
    } else {
        note_relative(alloc, table, context, name.path.as_slice(), noted)
    }
}

// Notes the names that are asked for a name of these words.
fn note_relative(
    alloc: Global,
    table: &Table,
    context: &[TypeName],
    path: &[Text],
    noted: &mut Seq<TypeName>,
) -> Mem<()>
    ensures ok { OnOk result (noted.new ≡ noted.old ++ map full_name (tried_relative table.now context.now path.now)) }
    ensures err { OnErr result (NotesFirst (tried_relative table.now context.now path.now) noted.old noted.new) }
{
    match path {
        [] => Ok(()),
        [head, rest @ ..] => note_from(alloc, table, context, head, rest, noted),
    }
}

// Notes the names that are asked for a name which begins with this word.
fn note_from(
    alloc: Global,
    table: &Table,
    context: &[TypeName],
    head: &Text,
    rest: &[Text],
    noted: &mut Seq<TypeName>,
) -> Mem<()>
    ensures ok { OnOk result (noted.new ≡ noted.old ++ map full_name (tried_relative table.now context.now (head.now ∷ rest.now))) }
    ensures err { OnErr result (NotesFirst (tried_relative table.now context.now (head.now ∷ rest.now)) noted.old noted.new) }
{
    let found = note_heads(alloc, table, context, head, rest, noted)?;
    note_whole(alloc, found, rest, noted)
}

// Notes the whole name behind what its first word stands for, where it has further words.
fn note_whole(
    alloc: Global,
    head: Option<&TypeName>,
    rest: &[Text],
    noted: &mut Seq<TypeName>,
) -> Mem<()>
    ensures ok { (path : Option Path) → option_copied head.entry ≡ option_map full_name path → OnOk result (noted.new ≡ noted.old ++ map full_name (whole_asked rest.now path)) }
    ensures err { OnErr result (noted.new ≡ noted.old) }
{
    match head {
        None => Ok(()),
        Some(head) => match rest {
            [] => Ok(()),
            _ => note(alloc, head.path.as_slice(), rest, noted),
        },
    }
}

// The full name that the first word of a name stands for. Notes the names that are asked for it.
fn note_heads<'a>(
    alloc: Global,
    table: &'a Table,
    context: &[TypeName],
    head: &Text,
    rest: &[Text],
    noted: &mut Seq<TypeName>,
) -> Mem<Option<&'a TypeName>>
    ensures found { IfOk result (λ found. option_copied found ≡ option_map full_name (first_that (is_head table.now rest.now) (candidates context.now head.now))) }
    ensures ok { OnOk result (noted.new ≡ noted.old ++ map full_name (up_to (is_head table.now rest.now) (candidates context.now head.now))) }
    ensures err { OnErr result (NotesFirst (up_to (is_head table.now rest.now) (candidates context.now head.now)) noted.old noted.new) }
{
    let mut enclosing = context;
    while let [outer @ .., inner] = enclosing {
        note(alloc, inner.path.as_slice(), slice::from_ref(head), noted)?;
        if let Some(found) = head_in(table, inner.path.as_slice(), head, rest) {
            return Ok(Some(found));
        }
        enclosing = outer;
    }
    note(alloc, &[], slice::from_ref(head), noted)?;
    Ok(head_in(table, &[], head, rest))
}

// Notes the full name with the words of two lists.
fn note(alloc: Global, front: &[Text], back: &[Text], noted: &mut Seq<TypeName>) -> Mem<()>
    ensures ok { OnOk result (noted.new ≡ noted.old ++ full_name (front.now ++ back.now) ∷ []) }
    ensures err { OnErr result (noted.new ≡ noted.old) }
{
    noted.push(joined_name(alloc, front, back)?)
}
