//! The rules of the grammar, by their names.

ghost use Rattle.std.specs.Prelude.{◌≡◌, ◌≤◌};
ghost use Rattle.ruby_exprs.specs.Names as spec;

/// Whether the block of a call may be `do .. end`. Where a loop's condition or the arguments of a command are read, it may not: the
/// `do` belongs to the loop or to the command.
#[derive(Clone, Copy, Debug, PartialEq, Eq)]
pub enum Sort {
    WithDo,
    WithoutDo,
}

/// Whose parameters a list has.
#[derive(Clone, Copy, Debug, PartialEq, Eq)]
pub enum ParamList {
    /// A method's or a lambda's.
    Plain,
    /// A method's or a lambda's, with values in which no `do` stands.
    PlainWithoutDo,
    /// A block's: it has groups too.
    OfBlock,
}

/// A rule of the grammar.
#[derive(Clone, Copy, Debug, PartialEq, Eq)]
pub enum Name {
    /// An argument, an item of an array or of a `when`.
    Item(Sort),
    /// The arguments of a command.
    Cargs,
    Stmts,
    Else,
    Then,
    Body,
    /// The name of a method that is called.
    Mname,
    DefName,
    DefHead,
    /// The name of a class or a module.
    Cpath,
    /// What stands in a text.
    Parts,
    Str,
    /// Arguments between brackets.
    Args,
    BraceArgs,
    /// Arguments with their brackets.
    Pargs,
    AliasName,
    /// One of the left sides of an assignment to several.
    Mlhs,
    /// A parameter of any kind.
    Param(ParamList),
    /// What may follow a `**` parameter.
    BehindKeyrest(ParamList),
    /// What may follow a keyword parameter.
    BehindKeyword(ParamList),
    /// What may follow a `*` parameter.
    BehindRest(ParamList),
    /// What may follow an optional parameter.
    BehindOptional(ParamList),
    /// What may follow a required parameter at the front.
    BehindRequired(ParamList),
    Params(ParamList),
    /// The parameters of a block, with their bars.
    Bpar,
    Doblock,
    BraceBlock,
    Block(Sort),
    /// What stands behind a value.
    Link(Sort),
    /// A value that no operator joins.
    Prim(Sort),
    /// A value with its links.
    PostParts(Sort),
    /// A call with arguments and without brackets.
    Command(Sort),
    /// The left side of an assignment.
    Lhs(Sort),
    /// An assignment to several.
    Masgn(Sort),
    /// An assignment of a command or of several values.
    Sasgn(Sort),
    Post(Sort),
    Una(Sort),
    Pow(Sort),
    Min(Sort),
    Mul(Sort),
    Add(Sort),
    Shf(Sort),
    Band(Sort),
    Bor(Sort),
    Cmp(Sort),
    Eq(Sort),
    Dfn(Sort),
    And(Sort),
    Or(Sort),
    Range(Sort),
    Tern(Sort),
    Arg(Sort),
    Not(Sort),
    Expr(Sort),
    Stmt,
    /// A whole text.
    Program,
}

/// The lists of a method or a lambda where blocks are of a sort.
pub fn list_of(sort: Sort) -> ParamList
    ensures { result ≡ spec.list_of sort }
{
    match sort {
        Sort::WithDo => ParamList::Plain,
        Sort::WithoutDo => ParamList::PlainWithoutDo,
    }
}

// The number of the first rule of a sort.
fn first_of_sort(sort: Sort) -> usize
    ensures number { result ≡ spec.first_of_sort sort }
    ensures bound { result ≤ 69 }
{
    match sort {
        Sort::WithDo => 42,
        Sort::WithoutDo => 69,
    }
}

// The number of the first rule of a list's parameters.
fn first_of_list(list: ParamList) -> usize
    ensures number { result ≡ spec.first_of_list list }
    ensures bound { result ≤ 32 }
{
    match list {
        ParamList::Plain => 18,
        ParamList::PlainWithoutDo => 25,
        ParamList::OfBlock => 32,
    }
}

// The number of the rule of an item.
fn item_number(sort: Sort) -> usize
    ensures { result ≡ spec.item_number sort }
{
    match sort {
        Sort::WithDo => 0,
        Sort::WithoutDo => 1,
    }
}

/// The number of a rule. A rule calls rules of lower numbers alone, and opens any.
#[tactic(auto, unfolding(crate::specs::Names::rule_number))]
pub fn rule_number(name: Name) -> usize
    ensures { result ≡ spec.rule_number name }
{
    match name {
        Name::Item(sort) => item_number(sort),
        Name::Cargs => 2,
        Name::Stmts => 3,
        Name::Else => 4,
        Name::Then => 5,
        Name::Body => 6,
        Name::Mname => 7,
        Name::DefName => 8,
        Name::DefHead => 9,
        Name::Cpath => 10,
        Name::Parts => 11,
        Name::Str => 12,
        Name::Args => 13,
        Name::BraceArgs => 14,
        Name::Pargs => 15,
        Name::AliasName => 16,
        Name::Mlhs => 17,
        Name::Param(list) => first_of_list(list),
        Name::BehindKeyrest(list) => first_of_list(list) + 1,
        Name::BehindKeyword(list) => first_of_list(list) + 2,
        Name::BehindRest(list) => first_of_list(list) + 3,
        Name::BehindOptional(list) => first_of_list(list) + 4,
        Name::BehindRequired(list) => first_of_list(list) + 5,
        Name::Params(list) => first_of_list(list) + 6,
        Name::Bpar => 39,
        Name::Doblock => 40,
        Name::BraceBlock => 41,
        Name::Block(sort) => first_of_sort(sort),
        Name::Link(sort) => first_of_sort(sort) + 1,
        Name::Prim(sort) => first_of_sort(sort) + 2,
        Name::PostParts(sort) => first_of_sort(sort) + 3,
        Name::Command(sort) => first_of_sort(sort) + 4,
        Name::Lhs(sort) => first_of_sort(sort) + 5,
        Name::Masgn(sort) => first_of_sort(sort) + 6,
        Name::Sasgn(sort) => first_of_sort(sort) + 7,
        Name::Post(sort) => first_of_sort(sort) + 8,
        Name::Una(sort) => first_of_sort(sort) + 9,
        Name::Pow(sort) => first_of_sort(sort) + 10,
        Name::Min(sort) => first_of_sort(sort) + 11,
        Name::Mul(sort) => first_of_sort(sort) + 12,
        Name::Add(sort) => first_of_sort(sort) + 13,
        Name::Shf(sort) => first_of_sort(sort) + 14,
        Name::Band(sort) => first_of_sort(sort) + 15,
        Name::Bor(sort) => first_of_sort(sort) + 16,
        Name::Cmp(sort) => first_of_sort(sort) + 17,
        Name::Eq(sort) => first_of_sort(sort) + 18,
        Name::Dfn(sort) => first_of_sort(sort) + 19,
        Name::And(sort) => first_of_sort(sort) + 20,
        Name::Or(sort) => first_of_sort(sort) + 21,
        Name::Range(sort) => first_of_sort(sort) + 22,
        Name::Tern(sort) => first_of_sort(sort) + 23,
        Name::Arg(sort) => first_of_sort(sort) + 24,
        Name::Not(sort) => first_of_sort(sort) + 25,
        Name::Expr(sort) => first_of_sort(sort) + 26,
        Name::Stmt => 96,
        Name::Program => 97,
    }
}
