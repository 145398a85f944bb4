ghost use Rattle.std.specs.Prelude.{◌≡◌, IfOk};
ghost use Rattle.sig_rules.specs.Sorted.{paths_of};
ghost use Rattle.definitions.specs.Tables.{HoldsOf, IsAlias};

use crate::key_table::KeyTable;
use crate::path_table::{PathTable, put_found};
use rbs_tree::{Ty, TypeName};
use sig_rules::Names;
use src_text::{Mem, Seq, Text};
use std::alloc::Global;
use type_meaning::alias;

/// What those of these full names that are of type aliases stand for.
pub(crate) fn aliases_of<N: Names>(
    alloc: Global,
    names: &N,
    list: &[TypeName],
) -> Mem<PathTable<(Seq<Text>, Ty)>>
    ensures { IfOk result (HoldsOf (IsAlias (N.all names.now)) (paths_of list.now)) }
{
    let mut table = KeyTable::new(alloc);
    for name in list {
        let found = alias(alloc, names, name)?;
        put_found(alloc, &mut table, name, found)?;
    }
    Ok(table)
}
