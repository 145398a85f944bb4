ghost use Rattle.std.specs.Prelude.{◌≡◌, OnOk};
ghost use Rattle.sig_rules.specs.Declarations.{same_path};
ghost use Rattle.definitions.specs.Tables.{Puts, PutsFound};

use crate::key_table::KeyTable;
use rbs_tree::{TypeName, copy_texts};
use src_text::{Mem, Seq, Text};
use std::alloc::Global;

/// Values by full name.
pub(crate) type PathTable<V> = KeyTable<Seq<Text>, V>;

/// Puts what a full name has into a table, where it has something.
pub(crate) fn put_found<V: Drop>(
    alloc: Global,
    table: &mut PathTable<V>,
    name: &TypeName,
    found: Option<V>,
) -> Mem<()>
    ensures { OnOk result (PutsFound table.old table.new name.now.path found) }
{
    match found {
        None => Ok(()),
        Some(value) => put_at(alloc, table, name, value),
    }
}

// Puts the value of a full name into a table.
fn put_at<V: Drop>(alloc: Global, table: &mut PathTable<V>, name: &TypeName, value: V) -> Mem<()>
    ensures { OnOk result (Puts same_path table.old table.new name.now.path value) }
{
    let path = copy_texts(alloc, name.path.as_slice())?;
    table.put(path, value)
}
