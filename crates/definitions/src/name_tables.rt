ghost use Rattle.std.specs.Prelude.{◌≡◌, ◌<◌, IfOk, IfErr};
ghost use Rattle.definitions.specs.Tables.{AreDefined, IsTooMany};

use crate::built_tables::{BuiltTables, built_tables};
use crate::name_list::declared_names;
use crate::standing_tables::{StandingTables, standing_tables};
use sig_rules::{BuildFault, Lines};
use std::alloc::Global;
use std::sync::ledger::{Blank, Ledger};

/// What all full names of a project have, beside their lines.
#[derive(Drop)]
pub(crate) struct NameTables {
    pub(crate) built: BuiltTables,
    pub(crate) standing: StandingTables,
}

/// What all full names of a project have, with a ledger for the steps. It fails where one has more than 4,096 methods.
pub(crate) fn name_tables<L: Lines, G: Ledger>(
    alloc: Global,
    lines: &L,
    blank: Blank,
) -> Result<NameTables, BuildFault>
    requires name { blank.name ≡ G.name }
    requires parts { blank.parts ≡ G.parts }
    requires some { 0 < G.parts }
    ensures defined { IfOk result (λ t. AreDefined (L.all lines.now) t.built.definitions t.built.shapes t.standing.aliases t.standing.values) }
    ensures fault { IfErr result (IsTooMany (L.all lines.now)) }
{
    let list = declared_names(alloc, lines)?;
    let names = list.as_slice();
    let built = built_tables::<L, G>(alloc, lines, names, blank)?;
    let standing = standing_tables(alloc, lines, names)?;
    Ok(NameTables { built, standing })
}
