//! Trees that are made while reading, in rows that share their beginnings: nothing is copied where a reading is taken back.

ghost use Rattle.std.specs.Prelude.{◌≡◌, ◌<◌, ◌≤◌, ◌+◌, ◌-◌, ◌++◌, ◌∷◌, [], ℕ, List, IfOk, OnOk, OnSome, Some, length, reverse, slice_get};
ghost use Rattle.ruby_grammar.specs.declared.tree.Tree.{Tree};
ghost use Rattle.ruby_grammar.specs.declared.tree.Tree.TheVariants as tree;
ghost use Rattle.ruby_grammar.specs.Meaning.{chained_trees};
ghost use Rattle.ruby_grammar.specs.Rows.{At, Extends};
ghost use Rattle.ruby_grammar.specs.Cells.{before_of, cell_of, denoted, last_of, list_at, lists_of, tree_of};

use crate::row::{Cell, Row};
use crate::tree::Tree;
use src_text::{Mem, NoMemory, Seq};
use std::alloc::Global;
use std::marker::Model;

/// A growing list of cells; the first has the number 1, and a cell is made of cells of lower numbers.
#[derive(Drop)]
pub struct Forest {
    cells: Vec<Cell>,
}

impl Model for Forest {
    ghost use Rattle.std.specs.Prelude.{List};
    ghost use Rattle.std.specs.Coded.{codes};
    ghost use Rattle.ruby_grammar.specs.contracts.tree.Tree as t;
    ghost use Rattle.ruby_grammar.specs.declared.tree.Tree.{Tree};
    ghost use Rattle.ruby_grammar.specs.Cells.{lists_of};

    ghost Value = { List (List Tree) };

    ghost coded = { Prim.hlevel (codes, t.the_row.coded) };

    ghost view = { λ f. lists_of f.cells.items };
}

// A number, where it is small enough for a cell.
fn small(number: usize) -> Mem<u32>
    ensures { IfOk result (λ small. small ≡ number) }
{
    match u32::try_from(number) {
        Ok(small) => Ok(small),
        Err(_) => Err(NoMemory),
    }
}

impl Forest {
    /// A forest without cells.
    #[tactic(auto, unfolding(crate::specs::Cells::lists_of))]
    pub fn new(alloc: Global) -> Forest
        ensures { result ≡ [] ∷ [] }
    {
        Forest {
            cells: Vec::new(alloc),
        }
    }

    // One cell more, and its number.
    fn add(&mut self, cell: Cell) -> Mem<usize>
        ensures extends { Extends self.old self.new }
        ensures held { IfOk result (λ number. slice_get self.new number ≡ Some (denoted self.old cell)) }
    {
        self.cells.push(cell)?;
        Ok(self.cells.len())
    }

    // One tree more behind a row.
    #[tactic(auto, using(crate::proofs::Extends::extends_same))]
    fn behind(&mut self, row: Row, cell: Cell) -> Mem<Row>
        ensures extends { Extends self.old self.new }
        ensures held { IfOk result (λ more. (slice_get self.new more.last ≡ Some (denoted self.old cell)) × (more.height ≡ row.height + 1)) }
    {
        match row.height.checked_add(1) {
            None => Err(NoMemory),
            Some(height) => {
                let last = self.add(cell)?;
                Ok(Row { last, height })
            }
        }
    }

    /// A token behind a row.
    #[tactic(auto, using(crate::proofs::Extends::extends_same, crate::proofs::Cells::leaf_held))]
    pub fn leaf(&mut self, row: Row, place: usize) -> Mem<Row>
        ensures extends { Extends self.old self.new }
        ensures made { (ts : List Tree) → At self.old row ts → IfOk result (λ more. At self.new more (ts ++ tree.Leaf place ∷ [])) }
    {
        let before = small(row.last)?;
        let place = small(place)?;
        self.behind(row, Cell::Leaf { before, place })
    }

    /// A node behind a row, over the trees that another row has behind it.
    #[tactic(auto, using(crate::proofs::Extends::extends_same, crate::proofs::Cells::node_held))]
    pub fn node(&mut self, base: Row, row: Row, name: u8, first: usize, behind: usize) -> Mem<Row>
        ensures extends { Extends self.old self.new }
        ensures made { (ts us : List Tree) → At self.old base ts → At self.old row (ts ++ us) → IfOk result (λ more. At self.new more (ts ++ tree.Node name first behind us ∷ [])) }
    {
        let before = small(base.last)?;
        let first = small(first)?;
        let behind = small(behind)?;
        let last = small(row.last)?;
        let count = small(trees_above(base, row))?;
        self.behind(
            base,
            Cell::Node {
                before,
                name,
                first,
                behind,
                last,
                count,
            },
        )
    }

    /// A node behind a row, over the trees that another row has behind it; but one tree alone stands for itself.
    #[tactic(auto, using(crate::proofs::Extends::extends_same, crate::proofs::Cells::one_alone))]
    pub fn chained(
        &mut self,
        base: Row,
        row: Row,
        name: u8,
        first: usize,
        behind: usize,
    ) -> Mem<Row>
        ensures extends { Extends self.old self.new }
        ensures made { (ts us : List Tree) → At self.old base ts → At self.old row (ts ++ us) → IfOk result (λ more. At self.new more (ts ++ chained_trees name first behind us)) }
    {
        if trees_above(base, row) == 1 {
            Ok(row)
        } else {
            self.node(base, row, name, first, behind)
        }
    }

    // The trees at the end of a row, so many, behind another.
    #[tactic(auto, using(crate::proofs::Extends::extends_same, crate::proofs::Extends::extends_then))]
    fn copied(&mut self, last: usize, count: usize, to: Row) -> Mem<Row>
        ensures extends { Extends self.old self.new }
        ensures made { (vs : List Tree) → At self.old to vs → IfOk result (λ more. At self.new more (vs ++ last_of count (list_at self.old last))) }
    {
        if count == 0 {
            return Ok(to);
        }
        match cell_at(self.cells.as_slice(), last) {
            None => Ok(to),
            Some(cell) => {
                let cell = below(cell, last);
                let row = self.copied(before_of(cell), count - 1, to)?;
                let before = small(row.last)?;
                self.behind(row, moved(cell, before))
            }
        }
    }

    /// The trees that a row has behind its base, behind another row.
    #[tactic(auto, using(crate::proofs::Extends::extends_same, crate::proofs::Cells::same_base, crate::proofs::Cells::moved_held))]
    pub fn moved(&mut self, base: Row, row: Row, to: Row) -> Mem<Row>
        ensures extends { Extends self.old self.new }
        ensures made { (ts us vs : List Tree) → At self.old base ts → At self.old row (ts ++ us) → At self.old to vs → IfOk result (λ more. At self.new more (vs ++ us)) }
    {
        if base == to {
            Ok(row)
        } else {
            self.copied(row.last, trees_above(base, row), to)
        }
    }

    /// The trees of a row, in order.
    #[tactic(auto, using(crate::proofs::Cells::all_made))]
    pub fn made(&self, alloc: Global, row: Row) -> Mem<Seq<Tree>>
        ensures { (ts : List Tree) → At self.now row ts → IfOk result (λ all. all ≡ ts) }
    {
        made_of(alloc, self.cells.as_slice(), row.last, row.height)
    }
}

// How many trees a row has behind its base.
fn trees_above(base: Row, row: Row) -> usize
    ensures { result ≡ row.height - base.height }
{
    if base.height < row.height {
        row.height - base.height
    } else {
        0
    }
}

// The same tree behind another row.
fn moved(cell: Cell, before: u32) -> Cell
    ensures { (lists : List (List Tree)) → denoted lists result ≡ list_at lists before ++ tree_of lists cell ∷ [] }
{
    match cell {
        Cell::Leaf { before: _, place } => Cell::Leaf { before, place },
        Cell::Node {
            before: _,
            name,
            first,
            behind,
            last,
            count,
        } => Cell::Node {
            before,
            name,
            first,
            behind,
            last,
            count,
        },
    }
}

// The number of a row; 0, for no trees, where it isn't below another.
fn lower(row: u32, number: usize) -> u32
    ensures { (front lists : List (List Tree)) → length front ≡ number → slice_get front 0 ≡ Some [] → Extends front lists → list_at lists result ≡ list_at front row }
{
    if (row as usize) < number { row } else { 0 }
}

// The same cell, made of rows below a number alone.
fn below(cell: Cell, number: usize) -> Cell
    ensures before { (front lists : List (List Tree)) → length front ≡ number → slice_get front 0 ≡ Some [] → Extends front lists → list_at lists (before_of result) ≡ list_at front (before_of cell) }
    ensures tree { (front lists : List (List Tree)) → length front ≡ number → slice_get front 0 ≡ Some [] → Extends front lists → tree_of lists result ≡ tree_of front cell }
{
    match cell {
        Cell::Leaf { before, place } => Cell::Leaf {
            before: lower(before, number),
            place,
        },
        Cell::Node {
            before,
            name,
            first,
            behind,
            last,
            count,
        } => Cell::Node {
            before: lower(before, number),
            name,
            first,
            behind,
            last: lower(last, number),
            count,
        },
    }
}

// The number of the row before a tree.
fn before_of(cell: Cell) -> usize
    ensures { result ≡ before_of cell }
{
    match cell {
        Cell::Leaf { before, .. } => before as usize,
        Cell::Node { before, .. } => before as usize,
    }
}

// The cell of a number.
fn cell_at(cells: &[Cell], number: usize) -> Option<Cell>
    ensures cell { result ≡ cell_of cells.now number }
    ensures within { OnSome result (0 < number × number ≤ length cells.now) }
{
    if number == 0 {
        None
    } else {
        cells.get(number - 1).copied()
    }
}

// So many trees at the end of the row of a number, that is made of these cells.
#[inline(never)]
#[cycle(put)]
fn made_of(alloc: Global, cells: &[Cell], last: usize, count: usize) -> Mem<Seq<Tree>>
    ensures { IfOk result (λ all. all ≡ last_of count (list_at (lists_of cells.now) last)) }
{
    let mut out = Vec::with_capacity(alloc, count)?;
    put(alloc, &mut out, cells, last, count)?;
    out.reverse();
    Ok(Seq::from_vec(out))
}

// Puts so many trees at the end of a row behind others, the last first.
#[cycle(put)]
fn put(alloc: Global, out: &mut Vec<Tree>, cells: &[Cell], last: usize, count: usize) -> Mem<()>
    ensures { OnOk result (out.new.items ≡ out.old.items ++ reverse (last_of count (list_at (lists_of cells.now) last))) }
{
    let mut known = cells;
    let mut number = last;
    let mut left = count;
    'left: while left != 0 {
        match cell_at(known, number) {
            None => return Ok(()),
            Some(cell) => {
                known = &known[..number - 1];
                match cell {
                    Cell::Leaf { before, place } => {
                        out.push(Tree::Leaf(place as usize))?;
                        number = before as usize;
                    }
                    Cell::Node {
                        before,
                        name,
                        first,
                        behind,
                        last,
                        count,
                    } => {
                        let inner = made_of(alloc, known, last as usize, count as usize)?;
                        out.push(Tree::Node(name, first as usize, behind as usize, inner))?;
                        number = before as usize;
                    }
                }
                left -= 1;
            }
        }
    }
    Ok(())
}
