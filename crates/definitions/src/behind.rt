ghost use Rattle.std.specs.Prelude.{◌≡◌, ◌↔◌, true, IsTrue, IfSome};
ghost use Rattle.line_members.specs.Sides.{Describes, IsBehind};
ghost use Rattle.sig_rules.specs.Lines.{is_self_type, line};
ghost use Rattle.sig_rules.specs.Types.{sort};
ghost use Rattle.definitions.specs.Tables.{AreDefinitions, IsSound};

use crate::path_table::PathTable;
use crate::sides::{Sides, side_on};
use line_members::{Behind, Side};
use rbs_tree::{TypeName, same_name, same_tys};
use sig_rules::{Kind, Lines, Shared, Step};

/// The steps of the line of a class, a module or an interface.
pub(crate) fn steps_of<'a, L: Lines>(
    lines: &'a L,
    name: &TypeName,
    kind: Kind,
) -> &'a [Shared<Step>]
    requires { is_self_type (sort (L.all lines.now) name.now.path) ≡ true }
    ensures { result.now ≡ (line (L.all lines.now) name.now.path kind).steps }
{
    match lines.line(name, kind) {
        None => &[],
        Some(line) => line.steps.as_slice(),
    }
}

/// The longest rest of a line behind its first step that is the whole line of a name of the table, with what is found along it. Where such a
/// line is of another length, its steps aren't compared.
pub(crate) fn find_behind<'a, L: Lines>(
    lines: &L,
    table: &'a PathTable<Sides>,
    steps: &[Shared<Step>],
    kind: Kind,
) -> Option<Behind<'a>>
    requires { IsSound (AreDefinitions (L.all lines.now)) table.now }
    ensures { IsBehind (L.all lines.now) kind steps.now result }
{
    for start in 1..steps.len() {
        if let Some(side) = known_side(lines, table, &steps[start..], kind) {
            return Some(Behind { start, side });
        }
    }
    None
}

// What is found along these steps, where they are the whole line of the first one's name and the table has that.
fn known_side<'a, L: Lines>(
    lines: &L,
    table: &'a PathTable<Sides>,
    steps: &[Shared<Step>],
    kind: Kind,
) -> Option<&'a Side>
    requires { IsSound (AreDefinitions (L.all lines.now)) table.now }
    ensures { IfSome result (λ side. Describes (L.all lines.now) kind steps.now side.now) }
{
    let step = first_of(steps, kind)?;
    if is_line_of(lines, &step.name, steps, kind) {
        side_in(lines, table, &step.name, kind)
    } else {
        None
    }
}

// The first of these steps, if it is of this kind.
fn first_of(steps: &[Shared<Step>], kind: Kind) -> Option<&Step> {
    let step = steps.first()?.get();
    if step.kind == kind { Some(step) } else { None }
}

// Whether these steps are the whole line of a full name.
fn is_line_of<L: Lines>(lines: &L, name: &TypeName, steps: &[Shared<Step>], kind: Kind) -> bool
    ensures { IsTrue result → steps.now ≡ (line (L.all lines.now) name.now.path kind).steps }
{
    match lines.line(name, kind) {
        None => false,
        Some(line) => are_same(steps, line.steps.as_slice()),
    }
}

// One side of a full name, if the table has it.
fn side_in<'a, L: Lines>(
    lines: &L,
    table: &'a PathTable<Sides>,
    name: &TypeName,
    kind: Kind,
) -> Option<&'a Side>
    requires { IsSound (AreDefinitions (L.all lines.now)) table.now }
    ensures { IfSome result (λ side. Describes (L.all lines.now) kind (line (L.all lines.now) name.now.path kind).steps side.now) }
{
    match table.get(&name.path) {
        None => None,
        Some(sides) => Some(side_on(sides, kind)),
    }
}

// Whether two lines have the same steps.
fn are_same(a: &[Shared<Step>], b: &[Shared<Step>]) -> bool
    ensures { IsTrue result ↔ (a.now ≡ b.now) }
{
    if a.len() != b.len() {
        return false;
    }
    for (i, step) in a.iter().enumerate() {
        if !is_same(step.get(), b[i].get()) {
            return false;
        }
    }
    true
}

// Whether two steps are the same.
fn is_same(a: &Step, b: &Step) -> bool
    ensures { IsTrue result ↔ (a.now ≡ b.now) }
{
    a.kind == b.kind
        && same_name(&a.name, &b.name)
        && same_tys(a.args.as_slice(), b.args.as_slice())
}
