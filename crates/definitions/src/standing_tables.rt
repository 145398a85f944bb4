ghost use Rattle.std.specs.Prelude.{IfOk};
ghost use Rattle.sig_rules.specs.Sorted.{paths_of};
ghost use Rattle.definitions.specs.Tables.{HoldsOf, HoldsValues, IsAlias};

use crate::alias_table::aliases_of;
use crate::path_table::PathTable;
use crate::value_table::{ValueTable, values_of};
use rbs_tree::{Ty, TypeName};
use sig_rules::Names;
use src_text::{Mem, Seq, Text};
use std::alloc::Global;

/// What aliases stand for, and the types of constants and globals.
#[derive(Drop)]
pub(crate) struct StandingTables {
    pub(crate) aliases: PathTable<(Seq<Text>, Ty)>,
    pub(crate) values: ValueTable,
}

/// What those of these full names stand for.
pub(crate) fn standing_tables<N: Names>(
    alloc: Global,
    names: &N,
    list: &[TypeName],
) -> Mem<StandingTables>
    ensures aliases { IfOk result (λ t. HoldsOf (IsAlias (N.all names.now)) (paths_of list.now) t.aliases) }
    ensures values { IfOk result (λ t. HoldsValues (N.all names.now) (paths_of list.now) t.values) }
{
    let aliases = aliases_of(alloc, names, list)?;
    let values = values_of(alloc, names, list)?;
    Ok(StandingTables { aliases, values })
}
