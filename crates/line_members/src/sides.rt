ghost use Rattle.std.specs.Prelude.{◌≡◌, ◌≤◌, [], ◌∷◌, drop, length, true, false, IfOk, IfErr, OnOk};
ghost use Rattle.sig_rules.specs.declared.line.Kind.TheVariants.{Instance, Singleton};
ghost use Rattle.sig_rules.specs.Counts.{IsBuildFault, methods_count, most_methods};
ghost use Rattle.sig_rules.specs.Lines.{is_self_type, line};
ghost use Rattle.sig_rules.specs.Methods.{made_on};
ghost use Rattle.sig_rules.specs.Types.{sort};
ghost use Rattle.line_members.specs.Along.{IsListed};
ghost use Rattle.line_members.specs.Sides.{Describes, IsBehind, IsTooManyAt, declared_entries};

use crate::entries::{Methods, method_named, shared, shared_but_new};
use crate::making::NothingMade;
use crate::methods::{methods_along, with_made};
use crate::new_made::{NewMade, steps_of};
use crate::variables::variables_along;
use method_steps::Making;
use rbs_tree::TypeName;
use sig_rules::{BuildFault, Definition, Kind, Lines, Names, Shared, Step};
use src_text::{Mem, Seq};
use std::alloc::Global;

/// So many methods may a definition have.
const MOST_METHODS: usize = 4_096;

/// One side of a class or a module, or an interface.
#[derive(Debug, Drop)]
pub struct Side {
    pub definition: Definition,
    /// Whether its `new` is made by a class, and declared nowhere along its line.
    pub makes_new: bool,
}

/// The rest of a line, of which it is known what is found along it.
#[derive(Clone, Copy)]
pub struct Behind<'a> {
    /// The place of its first step.
    pub start: usize,
    /// What is found along it.
    pub side: &'a Side,
}

/// What is found along the line of the instances of a class or a module of this full name, or along that of an interface, where some of
/// it may be known already. It fails where there are more than 4,096 methods.
pub fn instance_side<L: Lines>(
    alloc: Global,
    lines: &L,
    name: &TypeName,
    behind: Option<Behind>,
) -> Result<Side, BuildFault>
    requires there { is_self_type (sort (L.all lines.now) name.now.path) ≡ true }
    requires behind { IsBehind (L.all lines.now) Instance (line (L.all lines.now) name.now.path Instance).steps behind }
    ensures side { IfOk result (Describes (L.all lines.now) Instance (line (L.all lines.now) name.now.path Instance).steps) }
    ensures few { OnOk result (methods_count (L.all lines.now) name.now.path Instance ≤ most_methods) }
    ensures fault { IfErr result (IsBuildFault (L.all lines.now) name.now.path (Instance ∷ [])) }
{
    side_of(alloc, lines, name, Kind::Instance, &NothingMade, behind)
}

/// What is found along the line of a class or a module of this full name itself, where that of its instances is known, and some of its own
/// may be known already. It fails where there are more than 4,096 methods.
pub fn singleton_side<L: Lines>(
    alloc: Global,
    lines: &L,
    name: &TypeName,
    instance: &Side,
    behind: Option<Behind>,
) -> Result<Side, BuildFault>
    requires there { is_self_type (sort (L.all lines.now) name.now.path) ≡ true }
    requires instance { Describes (L.all lines.now) Instance (line (L.all lines.now) name.now.path Instance).steps instance.now }
    requires behind { IsBehind (L.all lines.now) Singleton (line (L.all lines.now) name.now.path Singleton).steps behind }
    ensures side { IfOk result (Describes (L.all lines.now) Singleton (line (L.all lines.now) name.now.path Singleton).steps) }
    ensures few { OnOk result (methods_count (L.all lines.now) name.now.path Singleton ≤ most_methods) }
    ensures fault { IfErr result (IsBuildFault (L.all lines.now) name.now.path (Singleton ∷ [])) }
{
    let making = NewMade {
        lines,
        of: name,
        initialize: method_named(instance.definition.methods.as_slice(), "initialize"),
    };
    side_of(alloc, lines, name, Kind::Singleton, &making, behind)
}

// What is found along one of the lines of a name, by what is made there.
fn side_of<L: Lines, M: Making>(
    alloc: Global,
    lines: &L,
    name: &TypeName,
    kind: Kind,
    making: &M,
    behind: Option<Behind>,
) -> Result<Side, BuildFault>
    requires there { is_self_type (sort (L.all lines.now) name.now.path) ≡ true }
    requires made { M.made making.now ≡ made_on (L.all lines.now) kind }
    requires behind { IsBehind (L.all lines.now) kind (line (L.all lines.now) name.now.path kind).steps behind }
    ensures side { IfOk result (Describes (L.all lines.now) kind (line (L.all lines.now) name.now.path kind).steps) }
    ensures few { OnOk result (methods_count (L.all lines.now) name.now.path kind ≤ most_methods) }
    ensures fault { IfErr result (IsBuildFault (L.all lines.now) name.now.path (kind ∷ [])) }
{
    let steps = steps_of(lines, name, kind);
    let side = side_with(alloc, lines, kind, making, steps, behind)?;
    counted(side)
}

// A side, unless it has too many methods.
fn counted(side: Side) -> Result<Side, BuildFault>
    ensures same { IfOk result (λ same. same ≡ side) }
    ensures few { OnOk result (length side.definition.methods ≤ most_methods) }
    ensures many { IfErr result (IsTooManyAt (length side.definition.methods)) }
{
    let count = side.definition.methods.len();
    if count > MOST_METHODS {
        return Err(BuildFault::Methods(count as u64));
    }
    Ok(side)
}

// What is found along these steps, some of which may be known.
fn side_with<N: Names, M: Making>(
    alloc: Global,
    names: &N,
    kind: Kind,
    making: &M,
    steps: &[Shared<Step>],
    behind: Option<Behind>,
) -> Mem<Side>
    requires made { M.made making.now ≡ made_on (N.all names.now) kind }
    requires behind { IsBehind (N.all names.now) kind steps.now behind }
    ensures { IfOk result (Describes (N.all names.now) kind steps.now) }
{
    match behind {
        None => side_afresh(alloc, names, kind, making, steps),
        Some(behind) => side_along(alloc, names, kind, making, steps, &behind),
    }
}

// What is found along these steps, none of which is known.
fn side_afresh<N: Names, M: Making>(
    alloc: Global,
    names: &N,
    kind: Kind,
    making: &M,
    steps: &[Shared<Step>],
) -> Mem<Side>
    requires { M.made making.now ≡ made_on (N.all names.now) kind }
    ensures { IfOk result (Describes (N.all names.now) kind steps.now) }
{
    let nothing = nothing_found(alloc);
    let none = Behind {
        start: steps.len(),
        side: &nothing,
    };
    side_along(alloc, names, kind, making, steps, &none)
}

// What is found along no steps.
fn nothing_found(alloc: Global) -> Side
    ensures { result ≡ record { definition = record { methods = []; variables = [] }; makes_new = false } }
{
    Side {
        definition: Definition {
            methods: Seq::new(alloc),
            variables: Seq::new(alloc),
        },
        makes_new: false,
    }
}

// What is found along these steps, by what is found along the last of them.
fn side_along<N: Names, M: Making>(
    alloc: Global,
    names: &N,
    kind: Kind,
    making: &M,
    steps: &[Shared<Step>],
    behind: &Behind,
) -> Mem<Side>
    requires made { M.made making.now ≡ made_on (N.all names.now) kind }
    requires behind { Describes (N.all names.now) kind (drop behind.now.start steps.now) behind.now.side.now }
    ensures { IfOk result (Describes (N.all names.now) kind steps.now) }
{
    let start = start_of(behind, steps);
    let declared = declared_of(alloc, behind.side)?;
    let declared = methods_along(alloc, names, making, steps, start, declared)?;
    let all = with_made(alloc, making, steps, declared)?;
    let variables = shared(alloc, behind.side.definition.variables.as_slice())?;
    let variables = variables_along(alloc, names, steps, start, variables)?;
    Ok(Side {
        definition: Definition {
            methods: all.methods,
            variables,
        },
        makes_new: all.makes_new,
    })
}

// The place from which on it is known what is found along these steps.
#[tactic(auto, using(crate::proofs::AlongLemmas::past_end))]
fn start_of(behind: &Behind, steps: &[Shared<Step>]) -> usize
    ensures within { result ≤ length steps.now }
    ensures same { drop result steps.now ≡ drop behind.now.start steps.now }
{
    if behind.start < steps.len() {
        behind.start
    } else {
        steps.len()
    }
}

// The methods of a side that are declared, in another list.
fn declared_of(alloc: Global, side: &Side) -> Mem<Methods>
    ensures { IfOk result (λ declared. declared ≡ declared_entries side.now) }
{
    let methods = side.definition.methods.as_slice();
    if side.makes_new {
        shared_but_new(alloc, methods)
    } else {
        shared(alloc, methods)
    }
}
