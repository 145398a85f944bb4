ghost use Rattle.std.specs.Prelude.{◌≡◌, [], ◌∷◌, ◌++◌, List, is_some, IfOk, OnOk};
ghost use Rattle.std.specs.Map.{lookup};
ghost use Rattle.sig_rules.specs.Declarations.{Path};
ghost use Rattle.sig_rules.specs.Methods.{same_word};
ghost use Rattle.sig_rules.specs.Sorted.{paths_of};
ghost use Rattle.definitions.specs.Tables.{HoldsValues};

use crate::key_table::KeyTable;
use crate::value_text::value_text;
use rbs_tree::{Ty, TypeName};
use sig_rules::Names;
use src_text::{Mem, Text};
use std::alloc::Global;
use type_meaning::value;

/// For each text by which values are asked for, the value of the first name that is asked for so, if it has one.
pub(crate) type ValueTable = KeyTable<Text, Option<Ty>>;

/// The values of these full names.
pub(crate) fn values_of<N: Names>(alloc: Global, names: &N, list: &[TypeName]) -> Mem<ValueTable>
    ensures { IfOk result (HoldsValues (N.all names.now) (paths_of list.now)) }
{
    let mut table = KeyTable::new(alloc);
    for name in list {
        put_value(alloc, names, name, &mut table)?;
    }
    Ok(table)
}

// Puts the value of a full name into a table, unless its text has one already.
fn put_value<N: Names>(alloc: Global, names: &N, name: &TypeName, table: &mut ValueTable) -> Mem<()>
    ensures { OnOk result ((paths : List Path) → HoldsValues (N.all names.now) paths table.old → HoldsValues (N.all names.now) (paths ++ name.now.path ∷ []) table.new) }
{
    let text = value_text(alloc, name.path.as_slice())?;
    if has_text(table, &text) {
        return Ok(());
    }
    let found = value(alloc, names, name)?;
    table.put(text, found)
}

// Whether a text has a value.
fn has_text(table: &ValueTable, text: &Text) -> bool
    ensures { result ≡ is_some (lookup (same_word text.now) table.now) }
{
    table.get(text).is_some()
}
