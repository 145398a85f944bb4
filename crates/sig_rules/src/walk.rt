ghost use Rattle.std.specs.Prelude.{◌≡◌, ℕ, List, [], ◌∷◌, ◌++◌, false, map, IfOk, OnOk};
ghost use Rattle.rbs_tree.specs.declared.names.TypeName.{TypeName};
ghost use Rattle.std.specs.List.{flat_map};
ghost use Rattle.sig_rules.specs.Declarations.{FoundMember, declared_in, declared_in_all, found, found_member, full_name, full_path};

use crate::names::{copy_names, inner_context};
use crate::own::copy_own;
use crate::{Declared, FileTree};
use rbs_tree::{Decl, Member, TypeName};
use src_text::{Mem, Seq, Text};
use std::alloc::Global;

/// All declarations of these files, in order.
pub fn declared(alloc: Global, files: &[FileTree]) -> Mem<Seq<Declared>>
    ensures { IfOk result (λ all. all ≡ declared_in_all files.now) }
{
    let mut all = Seq::new(alloc);
    declare_files(alloc, files, &mut all)?;
    Ok(all)
}

/// Puts all declarations of these files at the end, in order.
pub fn declare_files(alloc: Global, files: &[FileTree], all: &mut Seq<Declared>) -> Mem<()>
    ensures { OnOk result (all.new ≡ all.old ++ declared_in_all files.now) }
{
    for file in files {
        declare_file(alloc, file, all)?;
    }
    Ok(())
}

/// Puts all declarations of a file at the end, in order.
pub fn declare_file(alloc: Global, file: &FileTree, all: &mut Seq<Declared>) -> Mem<()>
    ensures { OnOk result (all.new ≡ all.old ++ declared_in file.now) }
{
    for decl in file.decls.as_slice() {
        declare(alloc, &file.path, &[], decl, all)?;
    }
    Ok(())
}

// Puts a declaration at the end, and all that are nested in it behind it.
#[cycle(declarations)]
fn declare(
    alloc: Global,
    path: &Text,
    context: &[TypeName],
    decl: &Decl,
    all: &mut Seq<Declared>,
) -> Mem<()>
    ensures { OnOk result (all.new ≡ all.old ++ (found decl.now).all path.now context.now) }
{
    all.push(declared_alone(alloc, path, context, decl)?)?;
    match decl {
        Decl::Class { name, members, .. } => {
            declare_inner(alloc, path, context, name, members.as_slice(), all)
        }
        Decl::Module { name, members, .. } => {
            declare_inner(alloc, path, context, name, members.as_slice(), all)
        }
        Decl::Interface { name, members, .. } => {
            declare_inner(alloc, path, context, name, members.as_slice(), all)
        }
        _ => Ok(()),
    }
}

// Puts what is declared in the members of a declaration of this name at the end.
#[cycle(declarations)]
fn declare_inner(
    alloc: Global,
    path: &Text,
    context: &[TypeName],
    name: &TypeName,
    members: &[Member],
    all: &mut Seq<Declared>,
) -> Mem<()>
    ensures { OnOk result (all.new ≡ all.old ++ flat_map (λ (m : FoundMember). m.all path.now (context.now ++ full_name (full_path context.now name.now) ∷ [])) (map found_member members.now)) }
{
    if !has_nested(members) {
        return Ok(());
    }
    let inner = inner_context(alloc, context, name)?;
    declare_members(alloc, path, inner.as_slice(), members, all)
}

// Puts what is declared in some members at the end.
#[cycle(declarations)]
fn declare_members(
    alloc: Global,
    path: &Text,
    context: &[TypeName],
    members: &[Member],
    all: &mut Seq<Declared>,
) -> Mem<()>
    ensures { OnOk result (all.new ≡ all.old ++ flat_map (λ (m : FoundMember). m.all path.now context.now) (map found_member members.now)) }
{
    for member in members {
        if let Member::Nested(decl) = member {
            declare(alloc, path, context, decl, all)?;
        }
    }
    Ok(())
}

// Whether something is declared in these members. Where nothing is, they add nothing, whatever is around them.
fn has_nested(members: &[Member]) -> bool
    ensures { result ≡ false → (path : List ℕ) (context : List TypeName) → flat_map (λ (m : FoundMember). m.all path context) (map found_member members.now) ≡ [] }
{
    for member in members {
        if let Member::Nested(_) = member {
            return true;
        }
    }
    false
}

// A declaration as it stands in the list.
fn declared_alone(alloc: Global, path: &Text, context: &[TypeName], decl: &Decl) -> Mem<Declared>
    ensures { IfOk result (λ declared. declared ≡ record { path = path.now; context = context.now; decl = (found decl.now).own }) }
{
    let context = copy_names(alloc, context)?;
    let decl = copy_own(alloc, decl)?;
    let path = path.clone()?;
    Ok(Declared {
        path,
        context,
        decl,
    })
}
