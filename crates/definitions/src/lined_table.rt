ghost use Rattle.std.specs.Prelude.{◌≡◌, slice_get, Some, IfOk, OnOk};
ghost use Rattle.std.specs.Map.{lookup};
ghost use Rattle.std.specs.Option.{is_some, option_copied, option_map};
ghost use Rattle.sig_rules.specs.Declarations.{entries, full_name, same_path};
ghost use Rattle.sig_rules.specs.declared.line.Kind.{Kind};
ghost use Rattle.sig_rules.specs.Lines.{line};
ghost use Rattle.sig_rules.specs.Names.{resolve};
ghost use Rattle.sig_rules.specs.Sorted.{paths_of};
ghost use Rattle.sig_rules.specs.Worlds.{line_of};
ghost use Rattle.definitions.specs.Tables.{AreLines, Holds, PutsFound, has_lines, line_on};
ghost use Rattle.definitions.specs.MadeLines.{IsSound, Keeps, MadeOf, line_at};

use crate::key_table::KeyTable;
use crate::name_list::declared_names;
use crate::named_table::NamedTable;
use crate::path_table::{PathTable, put_found};
use ancestors::{Known, instance_list_knowing, singleton_list_knowing, superclass_name};
use rbs_tree::{TypeName, both};
use sig_rules::{Declared, Kind, Line, Lines, Names, Sort, joined_name};
use src_text::{Mem, Text};
use std::alloc::Global;
use std::marker::Model;
use std::slice;
use type_meaning::sort;

/// So many superclasses of a name are made before it; those above them are walked.
const MOST_CLIMBED: usize = 1_024;

/// The names of a project, with the lines of its classes, modules and interfaces.
///
/// Contracts see it as the list of all that the project declares.
#[derive(Drop)]
pub(crate) struct LinedTable {
    named: NamedTable,
    /// For each class, module and interface the line of its instances and its own.
    lines: MadeLines,
}

impl Model for LinedTable {
    ghost use Rattle.std.specs.Prelude.{List};
    ghost use Rattle.sig_rules.specs.declared.files.Declared.{Declared};

    ghost Value = { List Declared };

    ghost use Rattle.std.specs.Coded.{coded_list};
    ghost use Rattle.sig_rules.specs.contracts.files.Declared.{the_row};

    ghost coded = { coded_list the_row.coded };

    ghost view = { λ t. t.named };

    ghost use Rattle.definitions.specs.Tables.{AreLines, Holds};

    ghost invariant = { λ t. Holds (AreLines t.named) t.lines };
}

impl LinedTable {
    /// The table of these names.
    pub(crate) fn new(alloc: Global, named: NamedTable) -> Mem<LinedTable>
        ensures { IfOk result (λ all. all ≡ named) }
    {
        let lines = all_lines(alloc, &named)?;
        Ok(LinedTable { named, lines })
    }
}

/// For each class, module and interface of which they are made, the line of its instances and its own.
#[derive(Drop)]
pub(crate) struct MadeLines {
    table: PathTable<(Line, Line)>,
}

impl Model for MadeLines {
    ghost use Rattle.std.specs.Prelude.{List};
    ghost use Rattle.sig_rules.specs.Declarations.{Path};
    ghost use Rattle.sig_rules.specs.declared.line.Line.{Line};

    ghost Value = { List (Path × (Line × Line)) };

    ghost use Rattle.std.specs.Coded.{codes};
    ghost use Rattle.sig_rules.specs.contracts.line.Line as of_line;

    ghost coded = { Prim.hlevel (codes, of_line.the_row.coded) };

    ghost view = { λ made. made.table };
}

impl Known for MadeLines {
    ghost lines = { λ made path kind. line_at made path kind };

    fn known_line(&self, name: &TypeName, kind: Kind) -> Option<&Line>
        ensures { option_copied result ≡ line_at self.now name.now.path kind }
    {
        match self.table.get(&name.path) {
            None => None,
            Some(lines) => Some(line_on(lines, kind)),
        }
    }
}

// The lines of all classes, modules and interfaces.
fn all_lines<N: Names>(alloc: Global, names: &N) -> Mem<MadeLines>
    ensures { IfOk result (Holds (AreLines (N.all names.now))) }
{
    let list = declared_names(alloc, names)?;
    let mut made = MadeLines {
        table: KeyTable::new(alloc),
    };
    make_first(alloc, names, "Class", &mut made)?;
    make_all(alloc, names, list.as_slice(), &mut made)?;
    Ok(made)
}

// Makes the lines of the full name of one word, which stand behind others.
fn make_first<N: Names>(alloc: Global, names: &N, word: &str, made: &mut MadeLines) -> Mem<()>
    requires { IsSound (N.all names.now) made.now }
    ensures { OnOk result (IsSound (N.all names.now) made.new) }
{
    let word = Text::from_str(alloc, word)?;
    let name = joined_name(alloc, &[], slice::from_ref(&word))?;
    make(alloc, names, &name, made)
}

// Makes the lines of these names.
fn make_all<N: Names>(alloc: Global, names: &N, list: &[TypeName], made: &mut MadeLines) -> Mem<()>
    requires { IsSound (N.all names.now) made.now }
    ensures sound { OnOk result (IsSound (N.all names.now) made.new) }
    ensures made { OnOk result (MadeOf (N.all names.now) (paths_of list.now) made.new) }
{
    for name in list {
        make(alloc, names, name, made)?;
    }
    Ok(())
}

// Makes the lines of a name, and before them those of its superclasses, from the top down.
fn make<N: Names>(alloc: Global, names: &N, name: &TypeName, made: &mut MadeLines) -> Mem<()>
    requires { IsSound (N.all names.now) made.now }
    ensures sound { OnOk result (IsSound (N.all names.now) made.new) }
    ensures kept { OnOk result (Keeps (N.all names.now) made.old made.new) }
    ensures made { OnOk result (AreLines (N.all names.now) name.now.path (lookup (same_path name.now.path) made.new)) }
{
    make_above(alloc, names, name, made)?;
    make_one(alloc, names, name, made)?;
    Ok(())
}

// Makes the lines of the superclasses of a name, from the top down.
fn make_above<N: Names>(alloc: Global, names: &N, name: &TypeName, made: &mut MadeLines) -> Mem<()>
    requires { IsSound (N.all names.now) made.now }
    ensures sound { OnOk result (IsSound (N.all names.now) made.new) }
    ensures kept { OnOk result (Keeps (N.all names.now) made.old made.new) }
{
    let mut above = unmade_above(alloc, names, name, made)?;
    while let Some(superclass) = above.pop() {
        make_one(alloc, names, superclass, made)?;
    }
    Ok(())
}

// The superclasses of a name of which no lines are made, from the nearest on. They tell in which order lines are made, and no more.
fn unmade_above<'a, N: Names>(
    alloc: Global,
    names: &'a N,
    name: &TypeName,
    made: &MadeLines,
) -> Mem<Vec<&'a TypeName>> {
    let mut above = Vec::new(alloc);
    let mut next = superclass_name(names, name);
    for _ in 0..MOST_CLIMBED {
        match next {
            None => return Ok(above),
            Some(superclass) => {
                if made.has(superclass) {
                    return Ok(above);
                }
                above.push(superclass)?;
                next = superclass_name(names, superclass);
            }
        }
    }
    Ok(above)
}

// Makes the lines of a name, where there are none yet.
fn make_one<N: Names>(alloc: Global, names: &N, name: &TypeName, made: &mut MadeLines) -> Mem<()>
    requires { IsSound (N.all names.now) made.now }
    ensures sound { OnOk result (IsSound (N.all names.now) made.new) }
    ensures kept { OnOk result (Keeps (N.all names.now) made.old made.new) }
    ensures made { OnOk result (AreLines (N.all names.now) name.now.path (lookup (same_path name.now.path) made.new)) }
{
    if made.has(name) {
        return Ok(());
    }
    let found = lines_at(alloc, names, made, name)?;
    made.put(alloc, name, found)?;
    Ok(())
}

impl MadeLines {
    // Whether the lines of a name are made.
    fn has(&self, name: &TypeName) -> bool
        ensures { result ≡ is_some (lookup (same_path name.now.path) self.now) }
    {
        self.table.get(&name.path).is_some()
    }

    // Puts the lines of a name, where there are some.
    fn put(&mut self, alloc: Global, name: &TypeName, found: Option<(Line, Line)>) -> Mem<()>
        ensures { OnOk result (PutsFound self.old self.new name.now.path found) }
    {
        put_found(alloc, &mut self.table, name, found)
    }
}

// Both lines of a full name, if it is of a class, a module or an interface.
fn lines_at<N: Names>(
    alloc: Global,
    names: &N,
    made: &MadeLines,
    name: &TypeName,
) -> Mem<Option<(Line, Line)>>
    requires { IsSound (N.all names.now) made.now }
    ensures { IfOk result (AreLines (N.all names.now) name.now.path) }
{
    if has_lines(sort(names, name)) {
        both_lines(alloc, names, made, name)
    } else {
        Ok(None)
    }
}

// Whether a name of this sort has lines.
fn has_lines(sort: Sort) -> bool
    ensures { result ≡ has_lines sort }
{
    match sort {
        Sort::Class => true,
        Sort::Module => true,
        Sort::Interface => true,
        _ => false,
    }
}

// Both lines of a full name.
#[tactic(auto, using(crate::proofs::MadeLemmas::sound_knows))]
fn both_lines<N: Names>(
    alloc: Global,
    names: &N,
    made: &MadeLines,
    name: &TypeName,
) -> Mem<Option<(Line, Line)>>
    requires { IsSound (N.all names.now) made.now }
    ensures { IfOk result (λ lines. (kind : Kind) → option_map (line_on kind) lines ≡ Some (line (N.all names.now) name.now.path kind)) }
{
    let instance = instance_list_knowing(alloc, names, made, name);
    let singleton = singleton_list_knowing(alloc, names, made, name);
    let lines = both(instance, singleton)?;
    Ok(Some(lines))
}

impl Names for LinedTable {
    ghost all = { λ t. t };

    fn resolve(&self, context: &[TypeName], name: &TypeName) -> Option<&TypeName>
        ensures { option_copied result ≡ option_map full_name (resolve self.now context.now name.now) }
    {
        self.named.resolve(context, name)
    }

    fn entries(&self, name: &TypeName) -> &[Declared]
        ensures { result.now ≡ entries self.now name.now.path }
    {
        self.named.entries(name)
    }

    fn decl_at(&self, i: u64) -> Option<&Declared>
        ensures { option_copied result ≡ slice_get self.now i }
    {
        self.named.decl_at(i)
    }
}

impl Lines for LinedTable {
    fn line(&self, name: &TypeName, kind: Kind) -> Option<&Line>
        ensures { option_copied result ≡ line_of self.now name.now.path kind }
    {
        self.lines.known_line(name, kind)
    }
}

// One of two lines.
fn line_on(lines: &(Line, Line), kind: Kind) -> &Line
    ensures { result.now ≡ line_on kind lines.now }
{
    match kind {
        Kind::Instance => &lines.0,
        Kind::Singleton => &lines.1,
    }
}
