ghost use Rattle.std.specs.Prelude.{◌≡◌, true, IfOk, IfErr};
ghost use Rattle.sig_rules.specs.Sorted.{paths_of};
ghost use Rattle.sig_rules.specs.Types.{sort};
ghost use Rattle.definitions.specs.Tables.{HoldsOf, IsFewShape, IsTooMany, is_interface};

use crate::key_table::KeyTable;
use crate::path_table::{PathTable, put_found};
use interfaces::shape;
use rbs_tree::TypeName;
use sig_rules::{BuildFault, Definition, Lines, Sort, Steps};
use std::alloc::Global;
use std::sync::ledger::Ledger;
use type_meaning::sort;

/// The shapes of those of these full names that are of interfaces. It fails where one has more than 4,096 methods.
pub(crate) fn shapes_of<L: Lines, G: Ledger>(
    alloc: Global,
    lines: &L,
    list: &[TypeName],
    steps: &mut Steps<G>,
) -> Result<PathTable<Definition>, BuildFault>
    ensures table { IfOk result (HoldsOf (IsFewShape (L.all lines.now)) (paths_of list.now)) }
    ensures fault { IfErr result (IsTooMany (L.all lines.now)) }
{
    let mut table = KeyTable::new(alloc);
    for name in list {
        let found = shape_at(alloc, lines, name, steps)?;
        put_found(alloc, &mut table, name, found)?;
    }
    Ok(table)
}

// The shape of a full name, if it is of an interface.
fn shape_at<L: Lines, G: Ledger>(
    alloc: Global,
    lines: &L,
    name: &TypeName,
    steps: &mut Steps<G>,
) -> Result<Option<Definition>, BuildFault>
    ensures is { IfOk result (IsFewShape (L.all lines.now) name.now.path) }
    ensures fault { IfErr result (IsTooMany (L.all lines.now)) }
{
    if is_interface(sort(lines, name)) {
        few_shape(alloc, lines, name, steps)
    } else {
        Ok(None)
    }
}

// Whether the sort is that of an interface.
fn is_interface(sort: Sort) -> bool
    ensures { result ≡ is_interface sort }
{
    match sort {
        Sort::Interface => true,
        _ => false,
    }
}

// The shape of a full name of an interface.
fn few_shape<L: Lines, G: Ledger>(
    alloc: Global,
    lines: &L,
    name: &TypeName,
    steps: &mut Steps<G>,
) -> Result<Option<Definition>, BuildFault>
    requires { is_interface (sort (L.all lines.now) name.now.path) ≡ true }
    ensures is { IfOk result (IsFewShape (L.all lines.now) name.now.path) }
    ensures fault { IfErr result (IsTooMany (L.all lines.now)) }
{
    match shape(alloc, lines, name, steps) {
        Ok(found) => Ok(Some(found)),
        Err(fault) => Err(fault),
    }
}
