ghost use Rattle.std.specs.Prelude.{◌≡◌, ◌&&◌, [], ◌∷◌, ◌++◌, Some, map, codes, IfOk, OnOk};
ghost use Rattle.sig_rules.specs.declared.given.What.TheVariants.{Whole};
ghost use Rattle.sig_rules.specs.Given.{is_on_side, only_if, reader, simple, visibility, writer};
ghost use Rattle.given_members.specs.Meanings.{meant_in, method_in, simple_of, with_methods};

use crate::scope::Scope;
use crate::visibility::Standing;
use rbs_tree::{MethodType, Param, Ty, both};
use sig_rules::{GivenMethod, Names, What};
use src_text::{Mem, Seq, Text};
use std::alloc::Global;

/// Puts the reader and the writer of an attribute at the end, those that it has, if they are of the kind.
pub(crate) fn put_attribute<N: Names>(
    alloc: Global,
    scope: &Scope<'_, N>,
    standing: Standing,
    name: &Text,
    reads: bool,
    writes: bool,
    ty: &Ty,
    methods: &mut Seq<GivenMethod>,
) -> Mem<()>
    ensures { OnOk result (methods.new ≡ methods.old ++ map (with_methods (method_in scope.now)) (only_if (is_on_side standing.kind standing.side && reads) (reader name.now (visibility standing.kind name.now standing.side standing.declared) ty.now) ++ only_if (is_on_side standing.kind standing.side && writes) (writer name.now (visibility standing.kind (name.now ++ codes "=") standing.side standing.declared) ty.now))) }
{
    let on_side = standing.is_on_side();
    put_reader(alloc, scope, standing, on_side && reads, name, ty, methods)?;
    put_writer(alloc, scope, standing, on_side && writes, name, ty, methods)
}

// Puts a reader at the end, if there is one.
fn put_reader<N: Names>(
    alloc: Global,
    scope: &Scope<'_, N>,
    standing: Standing,
    reads: bool,
    name: &Text,
    ty: &Ty,
    methods: &mut Seq<GivenMethod>,
) -> Mem<()>
    ensures { OnOk result (methods.new ≡ methods.old ++ map (with_methods (method_in scope.now)) (only_if reads (reader name.now (visibility standing.kind name.now standing.side standing.declared) ty.now))) }
{
    if reads {
        let visible = standing.visibility(name);
        let name = name.clone()?;
        let what = whole(alloc, reader_overload(alloc, scope, ty)?)?;
        methods.push(GivenMethod {
            name,
            visible,
            what,
        })
    } else {
        Ok(())
    }
}

// Puts a writer at the end, if there is one.
fn put_writer<N: Names>(
    alloc: Global,
    scope: &Scope<'_, N>,
    standing: Standing,
    writes: bool,
    name: &Text,
    ty: &Ty,
    methods: &mut Seq<GivenMethod>,
) -> Mem<()>
    ensures { OnOk result (methods.new ≡ methods.old ++ map (with_methods (method_in scope.now)) (only_if writes (writer name.now (visibility standing.kind (name.now ++ codes "=") standing.side standing.declared) ty.now))) }
{
    if writes {
        let writer = writer_name(name)?;
        let visible = standing.visibility(&writer);
        let what = whole(alloc, writer_overload(alloc, scope, name, ty)?)?;
        methods.push(GivenMethod {
            name: writer,
            visible,
            what,
        })
    } else {
        Ok(())
    }
}

// The name of an attribute's writer.
fn writer_name(name: &Text) -> Mem<Text>
    ensures { IfOk result (λ writer. writer ≡ name.now ++ codes "=") }
{
    let mut writer = name.clone()?;
    writer.push_str("=")?;
    Ok(writer)
}

// What the method type of a reader means.
fn reader_overload<N: Names>(alloc: Global, scope: &Scope<'_, N>, ty: &Ty) -> Mem<MethodType>
    ensures { IfOk result (λ m. m ≡ method_in scope.now (simple [] ty.now)) }
{
    let ty = scope.meant(alloc, ty)?;
    scope.instance(alloc, simple(alloc, Seq::new(alloc), ty))
}

// What the method type of a writer means.
fn writer_overload<N: Names>(
    alloc: Global,
    scope: &Scope<'_, N>,
    name: &Text,
    ty: &Ty,
) -> Mem<MethodType>
    ensures { IfOk result (λ m. m ≡ method_in scope.now (simple ((Some name.now, ty.now) ∷ []) ty.now)) }
{
    let required = writer_params(alloc, scope, name, ty);
    let (required, ty) = both(required, scope.meant(alloc, ty))?;
    scope.instance(alloc, simple(alloc, required, ty))
}

// What the only parameter of a writer means, as a list.
fn writer_params<N: Names>(
    alloc: Global,
    scope: &Scope<'_, N>,
    name: &Text,
    ty: &Ty,
) -> Mem<Seq<Param>>
    ensures { IfOk result (λ ps. ps ≡ record { ty = meant_in scope.now ty.now; name = Some name.now } ∷ []) }
{
    let mut params = Seq::new(alloc);
    let name = name.clone()?;
    let ty = scope.meant(alloc, ty)?;
    params.push(Param {
        ty,
        name: Some(name),
    })?;
    Ok(params)
}

// A method type of required parameters alone.
fn simple(alloc: Global, required: Seq<Param>, ty: Ty) -> MethodType
    ensures { result ≡ simple_of required ty }
{
    MethodType {
        vars: Seq::new(alloc),
        required,
        optional: Seq::new(alloc),
        rest: None,
        trailing: Seq::new(alloc),
        keywords: Seq::new(alloc),
        rest_keywords: None,
        block: None,
        result: ty,
    }
}

// A declaration by one overload.
fn whole(alloc: Global, method: MethodType) -> Mem<What>
    ensures { IfOk result (λ what. what ≡ Whole (method ∷ [])) }
{
    let mut overloads = Seq::new(alloc);
    overloads.push(method)?;
    Ok(What::Whole(overloads))
}
