ghost use Rattle.std.specs.Prelude.{◌≡◌, ◌≤◌, ◌<◌, List, true, slice_get, IfOk, IfErr};
ghost use Rattle.std.specs.Option.{option_copied, option_map};
ghost use Rattle.sig_rules.specs.declared.files.Declared.{Declared};
ghost use Rattle.sig_rules.specs.declared.line.Kind.{Kind};
ghost use Rattle.sig_rules.specs.Counts.{IsLimitFault, methods_count, most_methods};
ghost use Rattle.sig_rules.specs.Declarations.{Path, entries, full_name};
ghost use Rattle.sig_rules.specs.Limits.{most_names, names_count};
ghost use Rattle.sig_rules.specs.Lines.{is_self_type};
ghost use Rattle.sig_rules.specs.Names.{resolve};
ghost use Rattle.sig_rules.specs.Types.{sort};
ghost use Rattle.sig_rules.specs.Worlds.{IsDefinition, IsShape, alias_of, line_of, value_of};
ghost use Rattle.definitions.specs.Project.{IsProject};
ghost use Rattle.definitions.specs.Tables.{IsTooMany};

use crate::lined_table::LinedTable;
use crate::name_tables::{NameTables, name_tables};
use crate::named_table::NamedTable;
use crate::sides::definition_on;
use rbs_tree::{Ty, TypeName};
use sig_rules::{
    BuildFault, Declared, Definition, FileTree, Kind, Limit, LimitFault, Line, Lines, Members,
    Names,
};
use src_text::{Seq, Text};
use std::alloc::Global;
use std::marker::{Brand, Model};
use std::sync::ledger::{Blank, Ledger};

/// All that a project's signatures define: lines, definitions, shapes, aliases and values.
///
/// Contracts see it as the list of all that the project declares.
#[derive(Drop)]
pub struct FreshTable {
    lined: LinedTable,
    tables: NameTables,
}

impl Model for FreshTable {
    ghost use Rattle.std.specs.Prelude.{List};
    ghost use Rattle.sig_rules.specs.declared.files.Declared.{Declared};

    ghost Value = { List Declared };

    ghost use Rattle.std.specs.Coded.{coded_list};
    ghost use Rattle.sig_rules.specs.contracts.files.Declared.{the_row};

    ghost coded = { coded_list the_row.coded };

    ghost view = { λ t. t.lined };

    ghost use Rattle.definitions.specs.Tables.{AreDefined};

    ghost invariant = { λ t. AreDefined t.lined t.tables.built.definitions t.tables.built.shapes t.tables.standing.aliases t.tables.standing.values };
}

impl FreshTable {
    /// The table of a project of these signature files; the core signatures stand before them. It fails where more than 65,536 names are
    /// declared, and else where a definition has more than 4,096 methods.
    pub fn new(alloc: Global, files: &[FileTree]) -> Result<FreshTable, LimitFault>
        ensures project { IfOk result (IsProject files.now) }
        ensures few_names { IfOk result (λ all. names_count all ≤ most_names) }
        ensures few_methods { IfOk result (λ all. (path : Path) (kind : Kind) → is_self_type (sort all path) ≡ true → methods_count all path kind ≤ most_methods) }
        ensures fault { IfErr result (λ fault. (all : List Declared) → IsProject files.now all → IsLimitFault all fault) }
    {
        let named = NamedTable::new(alloc, files)?;
        FreshTable::of(alloc, named)
    }

    // The table of these names.
    fn of(alloc: Global, named: NamedTable) -> Result<FreshTable, LimitFault>
        requires { names_count named ≤ most_names }
        ensures all { IfOk result (λ all. all ≡ named) }
        ensures few_methods { IfOk result (λ all. (path : Path) (kind : Kind) → is_self_type (sort all path) ≡ true → methods_count all path kind ≤ most_methods) }
        ensures fault { IfErr result (IsLimitFault named) }
    {
        let lined = LinedTable::new(alloc, named)?;
        match FreshTable::defined::<Brand>(alloc, lined, Blank::new(1)) {
            Ok(table) => Ok(table),
            Err(BuildFault::Methods(count)) => Err(LimitFault::Limit(Limit::Methods, count)),
            Err(BuildFault::NoMemory) => Err(LimitFault::NoMemory),
        }
    }

    // The table of what has lines, with a ledger for its steps.
    fn defined<G: Ledger>(
        alloc: Global,
        lined: LinedTable,
        blank: Blank,
    ) -> Result<FreshTable, BuildFault>
        requires name { blank.name ≡ G.name }
        requires parts { blank.parts ≡ G.parts }
        requires some { 0 < G.parts }
        ensures all { IfOk result (λ all. all ≡ lined) }
        ensures few_methods { IfOk result (λ all. (path : Path) (kind : Kind) → is_self_type (sort all path) ≡ true → methods_count all path kind ≤ most_methods) }
        ensures fault { IfErr result (IsTooMany lined) }
    {
        let tables = name_tables::<LinedTable, G>(alloc, &lined, blank)?;
        Ok(FreshTable { lined, tables })
    }
}

impl Names for FreshTable {
    ghost all = { λ t. t };

    fn resolve(&self, context: &[TypeName], name: &TypeName) -> Option<&TypeName>
        ensures { option_copied result ≡ option_map full_name (resolve self.now context.now name.now) }
    {
        self.lined.resolve(context, name)
    }

    fn entries(&self, name: &TypeName) -> &[Declared]
        ensures { result.now ≡ entries self.now name.now.path }
    {
        self.lined.entries(name)
    }

    fn decl_at(&self, i: u64) -> Option<&Declared>
        ensures { option_copied result ≡ slice_get self.now i }
    {
        self.lined.decl_at(i)
    }
}

impl Lines for FreshTable {
    fn line(&self, name: &TypeName, kind: Kind) -> Option<&Line>
        ensures { option_copied result ≡ line_of self.now name.now.path kind }
    {
        self.lined.line(name, kind)
    }
}

impl Members for FreshTable {
    fn definition(&self, name: &TypeName, kind: Kind) -> Option<&Definition>
        ensures { IsDefinition self.now name.now.path kind (option_copied result) }
    {
        match self.tables.built.definitions.get(&name.path) {
            None => None,
            Some(sides) => Some(definition_on(sides, kind)),
        }
    }

    fn shape(&self, name: &TypeName) -> Option<&Definition>
        ensures { IsShape self.now name.now.path (option_copied result) }
    {
        self.tables.built.shapes.get(&name.path)
    }

    fn alias(&self, name: &TypeName) -> Option<&(Seq<Text>, Ty)>
        ensures { option_copied result ≡ alias_of self.now name.now.path }
    {
        self.tables.standing.aliases.get(&name.path)
    }

    fn value(&self, name: &Text) -> Option<&Ty>
        ensures { option_copied result ≡ value_of self.now name.now }
    {
        match self.tables.standing.values.get(name) {
            None => None,
            Some(found) => found.as_ref(),
        }
    }
}
