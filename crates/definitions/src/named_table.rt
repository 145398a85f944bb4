ghost use Rattle.std.specs.Prelude.{◌≡◌, ◌≤◌, List, slice_get, IfOk, IfErr};
ghost use Rattle.std.specs.Option.{option_copied, option_map};
ghost use Rattle.sig_rules.specs.declared.files.Declared.{Declared};
ghost use Rattle.sig_rules.specs.Counts.{IsLimitFault};
ghost use Rattle.sig_rules.specs.Declarations.{entries, full_name};
ghost use Rattle.sig_rules.specs.Limits.{most_names, names_count};
ghost use Rattle.sig_rules.specs.Names.{resolve};
ghost use Rattle.definitions.specs.Project.{IsProject};

use crate::core_tree::{core_tree, declared_behind_core};
use rbs_tree::TypeName;
use sig_rules::{Declared, FileTree, Limit, LimitFault, Names, Table, TableFault};
use src_text::Seq;
use std::alloc::Global;
use std::marker::Model;

/// The names of a project.
///
/// Contracts see it as the list of all that the project declares.
#[derive(Drop)]
pub(crate) struct NamedTable {
    table: Table,
}

impl Model for NamedTable {
    ghost use Rattle.std.specs.Prelude.{List};
    ghost use Rattle.sig_rules.specs.declared.files.Declared.{Declared};

    ghost Value = { List Declared };

    ghost use Rattle.std.specs.Coded.{coded_list};
    ghost use Rattle.sig_rules.specs.contracts.files.Declared.{the_row};

    ghost coded = { coded_list the_row.coded };

    ghost view = { λ t. t.table };
}

impl NamedTable {
    /// The names of a project of these signature files; the core signatures stand before them. It fails where more than 65,536 names are
    /// declared.
    pub(crate) fn new(alloc: Global, files: &[FileTree]) -> Result<NamedTable, LimitFault>
        ensures project { IfOk result (IsProject files.now) }
        ensures few { IfOk result (λ all. names_count all ≤ most_names) }
        ensures fault { IfErr result (λ fault. (all : List Declared) → IsProject files.now all → IsLimitFault all fault) }
    {
        let all = declared_behind_core(alloc, core_tree(alloc)?, files)?;
        NamedTable::of(alloc, all)
    }

    // The names of these declarations.
    fn of(alloc: Global, all: Seq<Declared>) -> Result<NamedTable, LimitFault>
        ensures all { IfOk result (λ table. table ≡ all) }
        ensures few { IfOk result (λ all. names_count all ≤ most_names) }
        ensures fault { IfErr result (IsLimitFault all) }
    {
        match Table::of(alloc, all) {
            Ok(table) => Ok(NamedTable { table }),
            Err(TableFault::Names(count)) => Err(LimitFault::Limit(Limit::Names, count)),
            Err(TableFault::NoMemory) => Err(LimitFault::NoMemory),
        }
    }
}

impl Names for NamedTable {
    ghost all = { λ t. t };

    fn resolve(&self, context: &[TypeName], name: &TypeName) -> Option<&TypeName>
        ensures { option_copied result ≡ option_map full_name (resolve self.now context.now name.now) }
    {
        name_resolver::resolve(&self.table, context, name)
    }

    fn entries(&self, name: &TypeName) -> &[Declared]
        ensures { result.now ≡ entries self.now name.now.path }
    {
        self.table.entries(name)
    }

    fn decl_at(&self, i: u64) -> Option<&Declared>
        ensures { option_copied result ≡ slice_get self.now i }
    {
        self.table.decl_at(i)
    }
}
