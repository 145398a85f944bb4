ghost use Rattle.std.specs.Prelude.{◌≡◌, ◌<◌, IfOk, IfErr};
ghost use Rattle.sig_rules.specs.Sorted.{paths_of};
ghost use Rattle.definitions.specs.Tables.{AreDefinitions, HoldsOf, IsFewShape, IsTooMany};

use crate::definition_table::definitions_of;
use crate::path_table::PathTable;
use crate::shape_table::shapes_of;
use crate::sides::Sides;
use rbs_tree::TypeName;
use sig_rules::{BuildFault, Definition, Lines, Steps};
use std::alloc::Global;
use std::sync::ledger::{Blank, Ledger};

/// The definitions of classes and modules, and the shapes of interfaces.
#[derive(Drop)]
pub(crate) struct BuiltTables {
    pub(crate) definitions: PathTable<Sides>,
    pub(crate) shapes: PathTable<Definition>,
}

/// What those of these full names have, with a ledger for the steps. It fails where one has more than 4,096 methods.
pub(crate) fn built_tables<L: Lines, G: Ledger>(
    alloc: Global,
    lines: &L,
    list: &[TypeName],
    blank: Blank,
) -> Result<BuiltTables, BuildFault>
    requires name { blank.name ≡ G.name }
    requires parts { blank.parts ≡ G.parts }
    requires some { 0 < G.parts }
    ensures definitions { IfOk result (λ t. HoldsOf (AreDefinitions (L.all lines.now)) (paths_of list.now) t.definitions) }
    ensures shapes { IfOk result (λ t. HoldsOf (IsFewShape (L.all lines.now)) (paths_of list.now) t.shapes) }
    ensures fault { IfErr result (IsTooMany (L.all lines.now)) }
{
    let mut steps = Steps::<G>::new(blank);
    let definitions = definitions_of(alloc, lines, list, &mut steps)?;
    let shapes = shapes_of(alloc, lines, list, &mut steps)?;
    Ok(BuiltTables {
        definitions,
        shapes,
    })
}
