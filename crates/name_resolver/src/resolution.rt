ghost use Rattle.std.specs.Prelude.{◌≡◌, [], ◌∷◌, ◌++◌, Some, None, if◌then◌else◌};
ghost use Rattle.std.specs.Option.{option_copied, option_map};
ghost use Rattle.sig_rules.specs.Declarations.{full_name};
ghost use Rattle.sig_rules.specs.Names.{candidates, first_that, has_inner_names, is_class_or_module, is_head, resolve, resolve_relative};

use rbs_tree::{Decl, TypeName};
use sig_rules::Table;
use src_text::Text;
use std::slice;

/// The full name that a name stands for among the enclosing names, of which the last is the innermost. It takes no memory.
///
/// The first word is looked up in the enclosing names from the innermost outwards, and last at the top; where further words follow, it
/// has to be a class or a module, and they are looked up in it alone.
pub fn resolve<'a>(table: &'a Table, context: &[TypeName], name: &TypeName) -> Option<&'a TypeName>
    ensures { option_copied result ≡ option_map full_name (resolve table.now context.now name.now) }
{
    if name.absolute {
        table.full(&[], name.path.as_slice())
    } else {
        resolve_relative(table, context, name.path.as_slice())
    }
}

// The full name that a name of these words stands for.
fn resolve_relative<'a>(
    table: &'a Table,
    context: &[TypeName],
    path: &[Text],
) -> Option<&'a TypeName>
    ensures { option_copied result ≡ option_map full_name (resolve_relative table.now context.now path.now) }
{
    match path {
        [] => None,
        [head, rest @ ..] => resolve_from(table, context, head, rest),
    }
}

// The full name that a name stands for which begins with this word.
fn resolve_from<'a>(
    table: &'a Table,
    context: &[TypeName],
    head: &Text,
    rest: &[Text],
) -> Option<&'a TypeName>
    ensures { option_copied result ≡ option_map full_name (resolve_relative table.now context.now (head.now ∷ rest.now)) }
{
    let found = head_of(table, context, head, rest)?;
    table.full(found.path.as_slice(), rest)
}

// The full name that the first word of a name stands for.
fn head_of<'a>(
    table: &'a Table,
    context: &[TypeName],
    head: &Text,
    rest: &[Text],
) -> Option<&'a TypeName>
    ensures { option_copied result ≡ option_map full_name (first_that (is_head table.now rest.now) (candidates context.now head.now)) }
{
    let mut enclosing = context;
    while let [outer @ .., inner] = enclosing {
        if let Some(found) = head_in(table, inner.path.as_slice(), head, rest) {
            return Some(found);
        }
        enclosing = outer;
    }
    head_in(table, &[], head, rest)
}

/// The full name of a word in a name, if the word stands for that.
pub(crate) fn head_in<'a>(
    table: &'a Table,
    front: &[Text],
    head: &Text,
    rest: &[Text],
) -> Option<&'a TypeName>
    ensures { option_copied result ≡ (if is_head table.now rest.now (front.now ++ head.now ∷ []) then Some (full_name (front.now ++ head.now ∷ [])) else None) }
{
    let found = table.full(front, slice::from_ref(head))?;
    if rest.is_empty() || has_inner_names(table, found) {
        Some(found)
    } else {
        None
    }
}

// Whether the name is of a class or a module.
fn has_inner_names(table: &Table, name: &TypeName) -> bool
    ensures { result ≡ has_inner_names table.now name.now.path }
{
    match table.entries(name) {
        [] => false,
        [first, ..] => is_class_or_module(&first.decl),
    }
}

fn is_class_or_module(decl: &Decl) -> bool
    ensures { result ≡ is_class_or_module decl.now }
{
    match decl {
        Decl::Class { .. } => true,
        Decl::Module { .. } => true,
        _ => false,
    }
}
