//! Whether names stand twice.

ghost use Rattle.std.specs.Prelude.{◌≡◌, IfOk};
ghost use Rattle.std.specs.List.{list_all};
ghost use Rattle.std.specs.Option.{option_map};
ghost use Rattle.steep_run.specs.Small as small;
ghost use Rattle.steep_run.specs.Reading.{IsNoted, IsNotedIfAny};

use crate::small::{class_word, method_name};
use method_steps::NameTable;
use rbs_tree::{Decl, Member};
use src_text::{Mem, Text};
use std::alloc::Global;
use type_meaning::members;

/// Whether no class stands twice among these declarations.
pub fn has_distinct_classes(alloc: Global, tree: &[Decl]) -> Mem<bool>
    ensures { IfOk result (λ distinct. distinct ≡ small.all_distinct (small.words_by small.class_word tree.now)) }
{
    let mut names = NameTable::new(alloc);
    let mut rest = tree;
    while let [decl, more @ ..] = rest {
        if !note_if_any(alloc, &mut names, class_word(decl))? {
            return Ok(false);
        }
        rest = more;
    }
    Ok(true)
}

/// Whether no method stands twice in any of these declarations.
pub fn have_distinct_methods(alloc: Global, tree: &[Decl]) -> Mem<bool>
    ensures { IfOk result (λ distinct. distinct ≡ list_all small.has_distinct_methods tree.now) }
{
    let mut rest = tree;
    while let [decl, more @ ..] = rest {
        if !has_distinct_methods(alloc, members(decl))? {
            return Ok(false);
        }
        rest = more;
    }
    Ok(true)
}

// Whether no method stands twice among these members.
fn has_distinct_methods(alloc: Global, members: &[Member]) -> Mem<bool>
    ensures { IfOk result (λ distinct. distinct ≡ small.all_distinct (small.words_by small.method_name members.now)) }
{
    let mut names = NameTable::new(alloc);
    let mut rest = members;
    while let [member, more @ ..] = rest {
        if !note_if_any(alloc, &mut names, method_name(member))? {
            return Ok(false);
        }
        rest = more;
    }
    Ok(true)
}

// Puts a name into the table, if there is one, and says that it is new.
fn note_if_any(alloc: Global, names: &mut NameTable<()>, name: Option<&str>) -> Mem<bool>
    ensures { IfOk result (IsNotedIfAny names.old names.new (option_map (λ w. w.now) name.entry)) }
{
    match name {
        None => Ok(true),
        Some(word) => note(alloc, names, word),
    }
}

// Puts a name into the table, and says that it is new.
fn note(alloc: Global, names: &mut NameTable<()>, word: &str) -> Mem<bool>
    ensures { IfOk result (IsNoted names.old names.new word.now) }
{
    let name = Text::from_str(alloc, word)?;
    if names.has(&name) {
        return Ok(false);
    }
    names.put(name, ())?;
    Ok(true)
}
