ghost use Rattle.std.specs.Prelude.{◌≡◌, ◌≤◌, ◌+◌, map, true, Some, IfOk, IfErr, OnOk};
ghost use Rattle.line_members.specs.Sides.{Describes};
ghost use Rattle.sig_rules.specs.declared.line.Kind.TheVariants.{Instance, Singleton};
ghost use Rattle.sig_rules.specs.Counts.{methods_count, most_methods};
ghost use Rattle.sig_rules.specs.Lines.{is_self_type, line};
ghost use Rattle.sig_rules.specs.Sorted.{paths_of};
ghost use Rattle.sig_rules.specs.Types.{sort};
ghost use Rattle.definitions.specs.Tables.{AreDefinitions, HoldsOf, IsSound, IsTooMany, has_sides};

use crate::behind::{find_behind, steps_of};
use crate::key_table::KeyTable;
use crate::order::short_lines_first;
use crate::path_table::{PathTable, put_found};
use crate::sides::Sides;
use line_members::{Side, instance_side, singleton_side};
use rbs_tree::TypeName;
use sig_rules::{BuildFault, Kind, Lines, Sort, Steps};
use std::alloc::Global;
use std::sync::ledger::Ledger;
use type_meaning::sort;

/// The definitions of those of these full names that have them. It fails where one has more than 4,096 methods.
pub(crate) fn definitions_of<L: Lines, G: Ledger>(
    alloc: Global,
    lines: &L,
    list: &[TypeName],
    steps: &mut Steps<G>,
) -> Result<PathTable<Sides>, BuildFault>
    ensures table { IfOk result (HoldsOf (AreDefinitions (L.all lines.now)) (paths_of list.now)) }
    ensures fault { IfErr result (IsTooMany (L.all lines.now)) }
{
    let order = short_lines_first(alloc, lines, list)?;
    definitions_in(alloc, lines, order.as_slice(), steps)
}

// The definitions of those of these full names that have them, made in this order, each by those before it.
fn definitions_in<L: Lines, G: Ledger>(
    alloc: Global,
    lines: &L,
    order: &[(usize, &TypeName)],
    steps: &mut Steps<G>,
) -> Result<PathTable<Sides>, BuildFault>
    ensures table { IfOk result (HoldsOf (AreDefinitions (L.all lines.now)) (paths_of (map (λ e. e.1.now) order.now))) }
    ensures fault { IfErr result (IsTooMany (L.all lines.now)) }
{
    let mut table = KeyTable::new(alloc);
    for (_, name) in order {
        let found = definitions_at(alloc, lines, &table, name, steps)?;
        put_found(alloc, &mut table, name, found)?;
    }
    Ok(table)
}

// Both definitions of a full name, if it is of a class or a module.
fn definitions_at<L: Lines, G: Ledger>(
    alloc: Global,
    lines: &L,
    table: &PathTable<Sides>,
    name: &TypeName,
    steps: &mut Steps<G>,
) -> Result<Option<Sides>, BuildFault>
    requires { IsSound (AreDefinitions (L.all lines.now)) table.now }
    ensures are { IfOk result (AreDefinitions (L.all lines.now) name.now.path) }
    ensures fault { IfErr result (IsTooMany (L.all lines.now)) }
{
    if has_sides(sort(lines, name)) {
        both_at(alloc, lines, table, name, steps)
    } else {
        Ok(None)
    }
}

// Whether a name of this sort has two sides with methods.
fn has_sides(sort: Sort) -> bool
    ensures { result ≡ has_sides sort }
{
    match sort {
        Sort::Class => true,
        Sort::Module => true,
        _ => false,
    }
}

// Both definitions of a full name of a class or a module. It is one step.
fn both_at<L: Lines, G: Ledger>(
    alloc: Global,
    lines: &L,
    table: &PathTable<Sides>,
    name: &TypeName,
    steps: &mut Steps<G>,
) -> Result<Option<Sides>, BuildFault>
    requires sound { IsSound (AreDefinitions (L.all lines.now)) table.now }
    requires has { has_sides (sort (L.all lines.now) name.now.path) ≡ true }
    ensures are { IfOk result (AreDefinitions (L.all lines.now) name.now.path) }
    ensures fault { IfErr result (IsTooMany (L.all lines.now)) }
    ensures steps { steps.new ≡ steps.old + 1 }
{
    steps.tick();
    match both_sides(alloc, lines, table, name) {
        Ok(sides) => Ok(Some(sides)),
        Err(fault) => Err(fault),
    }
}

// Both sides of a class or a module, by those that are known.
fn both_sides<L: Lines>(
    alloc: Global,
    lines: &L,
    table: &PathTable<Sides>,
    name: &TypeName,
) -> Result<Sides, BuildFault>
    requires sound { IsSound (AreDefinitions (L.all lines.now)) table.now }
    requires has { has_sides (sort (L.all lines.now) name.now.path) ≡ true }
    ensures are { IfOk result (λ sides. AreDefinitions (L.all lines.now) name.now.path (Some sides)) }
    ensures fault { IfErr result (IsTooMany (L.all lines.now)) }
{
    let instance = instances_of(alloc, lines, table, name)?;
    let singleton = itself_of(alloc, lines, table, name, &instance)?;
    Ok(Sides {
        instance,
        singleton,
    })
}

// The side of the instances of a class or a module, by those that are known.
fn instances_of<L: Lines>(
    alloc: Global,
    lines: &L,
    table: &PathTable<Sides>,
    name: &TypeName,
) -> Result<Side, BuildFault>
    requires sound { IsSound (AreDefinitions (L.all lines.now)) table.now }
    requires there { is_self_type (sort (L.all lines.now) name.now.path) ≡ true }
    ensures side { IfOk result (Describes (L.all lines.now) Instance (line (L.all lines.now) name.now.path Instance).steps) }
    ensures few { OnOk result (methods_count (L.all lines.now) name.now.path Instance ≤ most_methods) }
    ensures fault { IfErr result (IsTooMany (L.all lines.now)) }
{
    let steps = steps_of(lines, name, Kind::Instance);
    let behind = find_behind(lines, table, steps, Kind::Instance);
    match instance_side(alloc, lines, name, behind) {
        Ok(side) => Ok(side),
        Err(fault) => Err(fault),
    }
}

// The side of a class or a module itself, by those that are known.
fn itself_of<L: Lines>(
    alloc: Global,
    lines: &L,
    table: &PathTable<Sides>,
    name: &TypeName,
    instance: &Side,
) -> Result<Side, BuildFault>
    requires sound { IsSound (AreDefinitions (L.all lines.now)) table.now }
    requires there { is_self_type (sort (L.all lines.now) name.now.path) ≡ true }
    requires instance { Describes (L.all lines.now) Instance (line (L.all lines.now) name.now.path Instance).steps instance.now }
    ensures side { IfOk result (Describes (L.all lines.now) Singleton (line (L.all lines.now) name.now.path Singleton).steps) }
    ensures few { OnOk result (methods_count (L.all lines.now) name.now.path Singleton ≤ most_methods) }
    ensures fault { IfErr result (IsTooMany (L.all lines.now)) }
{
    let steps = steps_of(lines, name, Kind::Singleton);
    let behind = find_behind(lines, table, steps, Kind::Singleton);
    match singleton_side(alloc, lines, name, instance, behind) {
        Ok(side) => Ok(side),
        Err(fault) => Err(fault),
    }
}
