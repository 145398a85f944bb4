//! The names of the nodes of a concrete tree.

ghost use Rattle.std.specs.Prelude.{◌≡◌, slice_get};
ghost use Rattle.std.specs.Option.{option_copied};
ghost use Rattle.ruby_exprs.specs.Labels.{label_number, labels};

/// What a node of a concrete tree is. Each is named like the rule of the grammar that makes it, or like what that rule reads.
#[derive(Clone, Copy, Debug, PartialEq, Eq)]
pub enum Label {
    /// `splat`
    Splat,
    /// `double_splat`
    DoubleSplat,
    /// `block_pass`
    BlockPass,
    /// `label`
    LabelItem,
    /// `pair`
    Pair,
    /// `cargs`
    Cargs,
    /// `stmts`
    Stmts,
    /// `else`
    ElseForm,
    /// `body`
    Body,
    /// `rescue`
    RescueForm,
    /// `classes`
    Classes,
    /// `variable`
    Variable,
    /// `ensure`
    EnsureForm,
    /// `opt`
    Opt,
    /// `req`
    Req,
    /// `rest`
    Rest,
    /// `key`
    Key,
    /// `keyrest`
    Keyrest,
    /// `blockarg`
    Blockarg,
    /// `group`
    Group,
    /// `post`
    Post,
    /// `params`
    Params,
    /// `block`
    Block,
    /// `args`
    Args,
    /// `name_of`
    NameOf,
    /// `pargs`
    Pargs,
    /// `call_link`
    CallLink,
    /// `name_link`
    NameLink,
    /// `call_of_call`
    CallOfCall,
    /// `const_link`
    ConstLink,
    /// `index`
    Index,
    /// `cpath`
    Cpath,
    /// `name_set`
    NameSet,
    /// `self`
    SelfForm,
    /// `code`
    Code,
    /// `str`
    Str,
    /// `int`
    Int,
    /// `strs`
    Strs,
    /// `sym`
    Sym,
    /// `dsym`
    Dsym,
    /// `regexp`
    Regexp,
    /// `words`
    Words,
    /// `heredoc`
    Heredoc,
    /// `word`
    Word,
    /// `top_const`
    TopConst,
    /// `const_call`
    ConstCall,
    /// `const`
    Const,
    /// `group_of`
    GroupOf,
    /// `array`
    Array,
    /// `hash`
    Hash,
    /// `lambda`
    Lambda,
    /// `if`
    IfForm,
    /// `elsif`
    ElsifForm,
    /// `case`
    CaseForm,
    /// `subject`
    Subject,
    /// `when`
    WhenForm,
    /// `items`
    Items,
    /// `while`
    WhileForm,
    /// `begin`
    BeginForm,
    /// `yield`
    YieldForm,
    /// `return`
    ReturnForm,
    /// `short_def`
    ShortDef,
    /// `def`
    DefForm,
    /// `singleton_class`
    SingletonClass,
    /// `class`
    ClassForm,
    /// `superclass`
    Superclass,
    /// `module`
    ModuleForm,
    /// `call`
    Call,
    /// `name`
    Name,
    /// `command`
    Command,
    /// `mlhs`
    Mlhs,
    /// `masgn`
    Masgn,
    /// `values`
    Values,
    /// `asgn`
    Asgn,
    /// `not`
    NotForm,
    /// `expr`
    Expr,
    /// `unary`
    Unary,
    /// `pow`
    Pow,
    /// `minus`
    Minus,
    /// `mul`
    Mul,
    /// `add`
    Add,
    /// `shf`
    Shf,
    /// `band`
    Band,
    /// `bor`
    Bor,
    /// `cmp`
    Cmp,
    /// `eq`
    Eq,
    /// `defined`
    DefinedForm,
    /// `and`
    AndForm,
    /// `or`
    OrForm,
    /// `range`
    Range,
    /// `end`
    EndForm,
    /// `beginless`
    Beginless,
    /// `tern`
    Tern,
    /// `opasgn`
    Opasgn,
    /// `program`
    Program,
    /// `symbol_name`
    SymbolName,
    /// `stmt`
    Stmt,
    /// `alias`
    AliasForm,
    /// `modifier`
    Modifier,
}

const LABELS: [Label; 99] = [
    Label::Splat,
    Label::DoubleSplat,
    Label::BlockPass,
    Label::LabelItem,
    Label::Pair,
    Label::Cargs,
    Label::Stmts,
    Label::ElseForm,
    Label::Body,
    Label::RescueForm,
    Label::Classes,
    Label::Variable,
    Label::EnsureForm,
    Label::Opt,
    Label::Req,
    Label::Rest,
    Label::Key,
    Label::Keyrest,
    Label::Blockarg,
    Label::Group,
    Label::Post,
    Label::Params,
    Label::Block,
    Label::Args,
    Label::NameOf,
    Label::Pargs,
    Label::CallLink,
    Label::NameLink,
    Label::CallOfCall,
    Label::ConstLink,
    Label::Index,
    Label::Cpath,
    Label::NameSet,
    Label::SelfForm,
    Label::Code,
    Label::Str,
    Label::Int,
    Label::Strs,
    Label::Sym,
    Label::Dsym,
    Label::Regexp,
    Label::Words,
    Label::Heredoc,
    Label::Word,
    Label::TopConst,
    Label::ConstCall,
    Label::Const,
    Label::GroupOf,
    Label::Array,
    Label::Hash,
    Label::Lambda,
    Label::IfForm,
    Label::ElsifForm,
    Label::CaseForm,
    Label::Subject,
    Label::WhenForm,
    Label::Items,
    Label::WhileForm,
    Label::BeginForm,
    Label::YieldForm,
    Label::ReturnForm,
    Label::ShortDef,
    Label::DefForm,
    Label::SingletonClass,
    Label::ClassForm,
    Label::Superclass,
    Label::ModuleForm,
    Label::Call,
    Label::Name,
    Label::Command,
    Label::Mlhs,
    Label::Masgn,
    Label::Values,
    Label::Asgn,
    Label::NotForm,
    Label::Expr,
    Label::Unary,
    Label::Pow,
    Label::Minus,
    Label::Mul,
    Label::Add,
    Label::Shf,
    Label::Band,
    Label::Bor,
    Label::Cmp,
    Label::Eq,
    Label::DefinedForm,
    Label::AndForm,
    Label::OrForm,
    Label::Range,
    Label::EndForm,
    Label::Beginless,
    Label::Tern,
    Label::Opasgn,
    Label::Program,
    Label::SymbolName,
    Label::Stmt,
    Label::AliasForm,
    Label::Modifier,
];

impl Label {
    /// The number by which a node of a tree has this name.
    pub fn number(self) -> u8
        ensures { result ≡ label_number self }
    {
        self as u8
    }
}

// What stands in a table at a number.
fn at_number(table: &[Label], number: u8) -> Option<Label>
    ensures { result ≡ slice_get table.now number }
{
    table.get(usize::from(number)).copied()
}

/// The name of a number.
#[tactic(auto, unfolding(crate::specs::Labels::labels))]
pub fn label_of(number: u8) -> Option<Label>
    ensures { result ≡ slice_get labels number }
{
    at_number(&LABELS, number)
}
