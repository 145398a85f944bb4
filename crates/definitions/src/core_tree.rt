ghost use Rattle.std.specs.Prelude.{◌≡◌, ◌∷◌, IfOk};
ghost use Rattle.sig_rules.specs.Declarations.{declared_in_all};
ghost use Rattle.core_sigs.specs.Core.{core};
ghost use Rattle.rbs_grammar.specs.Texts.{HasTree};
ghost use Rattle.definitions.specs.Project.{core_file};

use core_sigs::core_text;
use rbs_parser::parse;
use rbs_tree::Decl;
use sig_rules::{Declared, FileTree, declare_file, declare_files};
use src_text::{Mem, NoMemory, Seq, Text};
use std::alloc::Global;

/// The tree of the core signatures.
pub(crate) fn core_tree(alloc: Global) -> Mem<Seq<Decl>>
    ensures { IfOk result (HasTree core) }
{
    let text = core_text();
    if text.len() >= 1 << 32 {
        return Err(NoMemory);
    }
    match parse(alloc, text) {
        Ok(tree) => Ok(tree),
        Err(_) => Err(NoMemory),
    }
}

/// All that these files declare, behind what the core signatures' tree declares.
pub(crate) fn declared_behind_core(
    alloc: Global,
    core: Seq<Decl>,
    files: &[FileTree],
) -> Mem<Seq<Declared>>
    ensures { IfOk result (λ all. all ≡ declared_in_all (core_file core ∷ files.now)) }
{
    let core = FileTree {
        path: Text::new(alloc),
        decls: core,
    };
    let mut all = Seq::new(alloc);
    declare_file(alloc, &core, &mut all)?;
    declare_files(alloc, files, &mut all)?;
    Ok(all)
}
