ghost use Rattle.std.specs.Prelude.{◌≡◌, IfOk};
ghost use Rattle.rbs_lexer.specs.declared.kind.Kind.TheVariants as k;
ghost use Rattle.rbs_grammar.specs.Grammar.{read, begins, tok, seq, alt, chain};
ghost use Rattle.rbs_grammar.specs.Parts.{token, both, behind, map_value, given, any_of, each, separated, prepend};
ghost use Rattle.rbs_grammar.specs.Rules.{Rule, start};
ghost use Rattle.rbs_grammar.specs.Types as spec;
ghost use Rattle.rbs_parser.specs.Nests.{Nests};
ghost use Rattle.rbs_parser.specs.Reading.{Reads, ReadsIn, ReadsPlain};

use crate::lists::push;
use crate::names::{absolute_words, class_name, relative_words};
use crate::values::{integer_value, string_value, symbol_value};
use crate::{Cursor, Refusal, Set};
use rbs_grammar::Words;
use rbs_lexer::{Kind, Token};
use rbs_tree::{Field, MethodType, Ty, TypeName};
use src_text::{Boxed, Mem, Seq, Span, Text};
use std::alloc::Global;

/// The reader of types and functions, where so many rules may still be opened. It opens types and functions by what it is given,
/// so that each rule is proved by itself.
#[derive(Clone, Copy)]
pub struct Types<T, F> {
    pub alloc: Global,
    /// How many marked rules may still be opened.
    pub marked: usize,
    /// How many functions may still be opened.
    pub functions: usize,
    pub ty: T,
    pub function: F,
}

impl<
    T: Fn(Global, &mut Cursor<'_>, usize, usize) -> Result<Ty, Refusal>,
    F: Fn(Global, &mut Cursor<'_>, usize, usize) -> Result<MethodType, Refusal>,
> Types<T, F> {
    #[tactic(auto, using(crate::proofs::Same::same_read), unfolding(rbs_grammar::specs::Types::a_type))]
    pub fn a_type(&self, cursor: &mut Cursor<'_>) -> Result<Ty, Refusal>
        requires { Nests Rule.ty self.now.marked self.now.functions (T.pre self.now.ty) (T.post self.now.ty) }
        ensures { ReadsIn self.now.marked self.now.functions spec.a_type cursor.old result cursor.new }
    {
        (self.ty)(self.alloc, cursor, self.marked, self.functions)
    }

    #[tactic(auto, using(crate::proofs::Same::same_read), unfolding(rbs_grammar::specs::Types::a_function))]
    pub fn a_function(&self, cursor: &mut Cursor<'_>) -> Result<MethodType, Refusal>
        requires { Nests Rule.function self.now.marked self.now.functions (F.pre self.now.function) (F.post self.now.function) }
        ensures { ReadsIn self.now.marked self.now.functions spec.a_function cursor.old result cursor.new }
    {
        (self.function)(self.alloc, cursor, self.marked, self.functions)
    }

    /// One or more types with commas between them.
    fn types(&self, cursor: &mut Cursor<'_>) -> Result<Seq<Ty>, Refusal>
        requires { Nests Rule.ty self.now.marked self.now.functions (T.pre self.now.ty) (T.post self.now.ty) }
        ensures { ReadsIn self.now.marked self.now.functions (separated k.Comma spec.a_type) cursor.old result cursor.new }
    {
        let mut all = Seq::new(self.alloc);
        let first = self.a_type(cursor)?;
        push(self.alloc, &mut all, first)?;
        'items: while cursor.eat(Set::One(Kind::Comma)) {
            let next = self.a_type(cursor)?;
            all.push(next)?;
        }
        Ok(all)
    }

    /// The types in brackets.
    #[tactic(auto, unfolding(rbs_grammar::specs::Types::type_args))]
    pub fn type_args(&self, cursor: &mut Cursor<'_>) -> Result<Seq<Ty>, Refusal>
        requires { Nests Rule.ty self.now.marked self.now.functions (T.pre self.now.ty) (T.post self.now.ty) }
        ensures { ReadsIn self.now.marked self.now.functions spec.type_args cursor.old result cursor.new }
    {
        cursor.expect(Set::One(Kind::LeftBracket))?;
        let found = self.types(cursor)?;
        cursor.expect(Set::One(Kind::RightBracket))?;
        Ok(found)
    }

    /// The types in brackets, or none.
    #[tactic(auto, unfolding(rbs_grammar::specs::Types::type_args))]
    fn some_args(&self, cursor: &mut Cursor<'_>) -> Result<Seq<Ty>, Refusal>
        requires { Nests Rule.ty self.now.marked self.now.functions (T.pre self.now.ty) (T.post self.now.ty) }
        ensures { ReadsIn self.now.marked self.now.functions (any_of spec.type_args) cursor.old result cursor.new }
    {
        if cursor.sees(Set::One(Kind::LeftBracket)) {
            self.type_args(cursor)
        } else {
            Ok(Seq::new(self.alloc))
        }
    }

    /// What stands behind a leading `::`.
    #[tactic(auto, using(crate::proofs::NamesInTypes::absolute_words_anywhere))]
    fn absolute_words(&self, cursor: &mut Cursor<'_>) -> Result<Words, Refusal>
        ensures { ReadsIn self.now.marked self.now.functions spec.absolute_words cursor.old result cursor.new }
    {
        absolute_words(self.alloc, cursor)
    }

    /// A type that is named, behind a leading `::`.
    fn absolute_type(&self, cursor: &mut Cursor<'_>) -> Result<Ty, Refusal>
        requires { Nests Rule.ty self.now.marked self.now.functions (T.pre self.now.ty) (T.post self.now.ty) }
        ensures { ReadsIn self.now.marked self.now.functions (seq spec.absolute_type (token k.ColonColon) (both spec.absolute_words (any_of spec.type_args))) cursor.old result cursor.new }
    {
        let colons = cursor.expect(Set::One(Kind::ColonColon))?;
        let words = self.absolute_words(cursor)?;
        let args = self.some_args(cursor)?;
        Ok(absolute_type(colons, words, args))
    }

    /// A type that is named, without a leading `::`.
    #[tactic(auto, using(crate::proofs::NamesInTypes::relative_words_anywhere))]
    fn relative_type(&self, cursor: &mut Cursor<'_>) -> Result<Ty, Refusal>
        requires { Nests Rule.ty self.now.marked self.now.functions (T.pre self.now.ty) (T.post self.now.ty) }
        ensures { ReadsIn self.now.marked self.now.functions (seq spec.relative_type spec.relative_words (any_of spec.type_args)) cursor.old result cursor.new }
    {
        let words = relative_words(self.alloc, cursor)?;
        let args = self.some_args(cursor)?;
        Ok(relative_type(words, args))
    }

    /// An instance, an interface or an alias.
    #[tactic(auto, unfolding(rbs_grammar::specs::Types::named))]
    fn named(&self, cursor: &mut Cursor<'_>) -> Result<Ty, Refusal>
        requires { Nests Rule.ty self.now.marked self.now.functions (T.pre self.now.ty) (T.post self.now.ty) }
        ensures { ReadsIn self.now.marked self.now.functions spec.named cursor.old result cursor.new }
    {
        if cursor.sees(Set::One(Kind::ColonColon)) {
            self.absolute_type(cursor)
        } else {
            self.relative_type(cursor)
        }
    }

    /// A type in parentheses.
    #[tactic(auto, unfolding(rbs_grammar::specs::Types::group))]
    fn group(&self, cursor: &mut Cursor<'_>) -> Result<Ty, Refusal>
        requires { Nests Rule.ty self.now.marked self.now.functions (T.pre self.now.ty) (T.post self.now.ty) }
        ensures { ReadsIn self.now.marked self.now.functions spec.group cursor.old result cursor.new }
    {
        cursor.expect(Set::One(Kind::LeftParen))?;
        let inner = self.a_type(cursor)?;
        cursor.expect(Set::One(Kind::RightParen))?;
        Ok(inner)
    }

    /// Types with commas between them, or none.
    #[tactic(auto, unfolding(rbs_grammar::specs::Types::a_type))]
    fn some_types(&self, cursor: &mut Cursor<'_>) -> Result<Seq<Ty>, Refusal>
        requires { Nests Rule.ty self.now.marked self.now.functions (T.pre self.now.ty) (T.post self.now.ty) }
        ensures { ReadsIn self.now.marked self.now.functions (any_of (separated k.Comma spec.a_type)) cursor.old result cursor.new }
    {
        if begins_type(cursor) {
            self.types(cursor)
        } else {
            Ok(Seq::new(self.alloc))
        }
    }

    /// A tuple.
    #[tactic(auto, unfolding(rbs_grammar::specs::Types::tuple))]
    fn tuple(&self, cursor: &mut Cursor<'_>) -> Result<Ty, Refusal>
        requires { Nests Rule.ty self.now.marked self.now.functions (T.pre self.now.ty) (T.post self.now.ty) }
        ensures { ReadsIn self.now.marked self.now.functions spec.tuple cursor.old result cursor.new }
    {
        cursor.expect(Set::One(Kind::LeftBracket))?;
        let items = self.some_types(cursor)?;
        cursor.expect(Set::One(Kind::RightBracket))?;
        Ok(Ty::TupleOf(items))
    }

    /// A key of a record with its type.
    #[tactic(auto, unfolding(rbs_grammar::specs::Types::field))]
    fn field(&self, cursor: &mut Cursor<'_>) -> Result<Field, Refusal>
        requires { Nests Rule.ty self.now.marked self.now.functions (T.pre self.now.ty) (T.post self.now.ty) }
        ensures { ReadsIn self.now.marked self.now.functions spec.field cursor.old result cursor.new }
    {
        let token = cursor.expect(Set::Word)?;
        cursor.expect(Set::One(Kind::Colon))?;
        let ty = self.a_type(cursor)?;
        let key = text_of(self.alloc, token)?;
        Ok(Field { key, ty })
    }

    /// One or more fields with commas between them; one more comma may end the list.
    fn fields(&self, cursor: &mut Cursor<'_>) -> Result<Seq<Field>, Refusal>
        requires { Nests Rule.ty self.now.marked self.now.functions (T.pre self.now.ty) (T.post self.now.ty) }
        ensures { ReadsIn self.now.marked self.now.functions (chain spec.somes (map_value spec.some_field spec.field) spec.fields_lead spec.field_part) cursor.old result cursor.new }
    {
        let mut all = Seq::new(self.alloc);
        let first = self.field(cursor)?;
        all.push(first)?;
        'items: while cursor.eat(Set::One(Kind::Comma)) {
            if !cursor.sees(Set::Word) {
                return Ok(all);
            }
            let next = self.field(cursor)?;
            all.push(next)?;
        }
        Ok(all)
    }

    /// Fields, or none.
    #[tactic(auto, unfolding(rbs_grammar::specs::Types::field))]
    fn some_fields(&self, cursor: &mut Cursor<'_>) -> Result<Seq<Field>, Refusal>
        requires { Nests Rule.ty self.now.marked self.now.functions (T.pre self.now.ty) (T.post self.now.ty) }
        ensures { ReadsIn self.now.marked self.now.functions (any_of (chain spec.somes (map_value spec.some_field spec.field) spec.fields_lead spec.field_part)) cursor.old result cursor.new }
    {
        if cursor.sees(Set::Word) {
            self.fields(cursor)
        } else {
            Ok(Seq::new(self.alloc))
        }
    }

    /// A record.
    #[tactic(auto, unfolding(rbs_grammar::specs::Types::record_type))]
    fn record_type(&self, cursor: &mut Cursor<'_>) -> Result<Ty, Refusal>
        requires { Nests Rule.ty self.now.marked self.now.functions (T.pre self.now.ty) (T.post self.now.ty) }
        ensures { ReadsIn self.now.marked self.now.functions spec.record_type cursor.old result cursor.new }
    {
        cursor.expect(Set::One(Kind::LeftBrace))?;
        let fields = self.some_fields(cursor)?;
        cursor.expect(Set::One(Kind::RightBrace))?;
        Ok(Ty::RecordOf(fields))
    }

    /// A type of one token, or one that is named.
    fn lone(&self, cursor: &mut Cursor<'_>) -> Result<Ty, Refusal>
        requires { Nests Rule.ty self.now.marked self.now.functions (T.pre self.now.ty) (T.post self.now.ty) }
        ensures { ReadsIn self.now.marked self.now.functions (alt (tok spec.is_single k.Nil spec.single_of) spec.named) cursor.old result cursor.new }
    {
        if cursor.sees(Set::Single) {
            single(self.alloc, cursor)
        } else {
            self.named(cursor)
        }
    }

    /// A class or a module itself.
    #[tactic(auto, using(crate::proofs::NamesInTypes::singleton_anywhere))]
    fn singleton(&self, cursor: &mut Cursor<'_>) -> Result<Ty, Refusal>
        ensures { ReadsIn self.now.marked self.now.functions spec.singleton cursor.old result cursor.new }
    {
        singleton(self.alloc, cursor)
    }

    /// A type that no bracket begins.
    #[tactic(auto, unfolding(rbs_grammar::specs::Types::singleton))]
    fn plain(&self, cursor: &mut Cursor<'_>) -> Result<Ty, Refusal>
        requires { Nests Rule.ty self.now.marked self.now.functions (T.pre self.now.ty) (T.post self.now.ty) }
        ensures { ReadsIn self.now.marked self.now.functions (alt spec.singleton (alt (tok spec.is_single k.Nil spec.single_of) spec.named)) cursor.old result cursor.new }
    {
        if cursor.sees(Set::One(Kind::Singleton)) {
            self.singleton(cursor)
        } else {
            self.lone(cursor)
        }
    }

    /// A type without a sign before or behind it.
    #[tactic(auto, unfolding(rbs_grammar::specs::Types::base, rbs_grammar::specs::Types::group, rbs_grammar::specs::Types::tuple, rbs_grammar::specs::Types::record_type))]
    fn base(&self, cursor: &mut Cursor<'_>) -> Result<Ty, Refusal>
        requires { Nests Rule.ty self.now.marked self.now.functions (T.pre self.now.ty) (T.post self.now.ty) }
        ensures { ReadsIn self.now.marked self.now.functions spec.base cursor.old result cursor.new }
    {
        if cursor.sees(Set::One(Kind::LeftParen)) {
            self.group(cursor)
        } else if cursor.sees(Set::One(Kind::LeftBracket)) {
            self.tuple(cursor)
        } else if cursor.sees(Set::One(Kind::LeftBrace)) {
            self.record_type(cursor)
        } else {
            self.plain(cursor)
        }
    }

    /// A function as a value.
    #[tactic(auto, unfolding(rbs_grammar::specs::Types::proc))]
    fn proc(&self, cursor: &mut Cursor<'_>) -> Result<Ty, Refusal>
        requires { Nests Rule.function self.now.marked self.now.functions (F.pre self.now.function) (F.post self.now.function) }
        ensures { ReadsIn self.now.marked self.now.functions spec.proc cursor.old result cursor.new }
    {
        cursor.expect(Set::One(Kind::Caret))?;
        let function = self.a_function(cursor)?;
        Ok(Ty::ProcOf(Boxed::new(self.alloc, function)?))
    }

    /// A type with `?` behind it or without.
    #[tactic(auto, unfolding(crate::specs::Reading::after))]
    fn optional_base(&self, cursor: &mut Cursor<'_>) -> Result<Ty, Refusal>
        requires { Nests Rule.ty self.now.marked self.now.functions (T.pre self.now.ty) (T.post self.now.ty) }
        ensures { ReadsIn self.now.marked self.now.functions (seq spec.optional_type spec.base (given (token k.Question))) cursor.old result cursor.new }
    {
        let inner = self.base(cursor)?;
        if cursor.eat(Set::One(Kind::Question)) {
            Ok(Ty::Optional(Boxed::new(self.alloc, inner)?))
        } else {
            Ok(inner)
        }
    }

    /// A function as a value, or a type with `?` behind it or without.
    #[tactic(auto, unfolding(rbs_grammar::specs::Types::opt, rbs_grammar::specs::Types::proc))]
    pub fn opt(&self, cursor: &mut Cursor<'_>) -> Result<Ty, Refusal>
        requires types { Nests Rule.ty self.now.marked self.now.functions (T.pre self.now.ty) (T.post self.now.ty) }
        requires functions { Nests Rule.function self.now.marked self.now.functions (F.pre self.now.function) (F.post self.now.function) }
        ensures { ReadsIn self.now.marked self.now.functions spec.opt cursor.old result cursor.new }
    {
        if cursor.sees(Set::One(Kind::Caret)) {
            self.proc(cursor)
        } else {
            self.optional_base(cursor)
        }
    }

    /// One type that was read and those behind it, each of which a `&` leads.
    fn more_opts(&self, first: Ty, cursor: &mut Cursor<'_>) -> Result<Seq<Ty>, Refusal>
        requires types { Nests Rule.ty self.now.marked self.now.functions (T.pre self.now.ty) (T.post self.now.ty) }
        requires functions { Nests Rule.function self.now.marked self.now.functions (F.pre self.now.function) (F.post self.now.function) }
        ensures { ReadsIn self.now.marked self.now.functions (map_value (prepend first) (each (behind k.Ampersand spec.opt))) cursor.old result cursor.new }
    {
        let mut all = Seq::new(self.alloc);
        all.push(first)?;
        'items: while cursor.eat(Set::One(Kind::Ampersand)) {
            let next = self.opt(cursor)?;
            all.push(next)?;
        }
        Ok(all)
    }

    /// An intersection, or a type alone.
    #[tactic(auto, unfolding(rbs_grammar::specs::Types::inter))]
    fn inter(&self, cursor: &mut Cursor<'_>) -> Result<Ty, Refusal>
        requires types { Nests Rule.ty self.now.marked self.now.functions (T.pre self.now.ty) (T.post self.now.ty) }
        requires functions { Nests Rule.function self.now.marked self.now.functions (F.pre self.now.function) (F.post self.now.function) }
        ensures { ReadsIn self.now.marked self.now.functions spec.inter cursor.old result cursor.new }
    {
        let first = self.opt(cursor)?;
        if !cursor.sees(Set::One(Kind::Ampersand)) {
            return Ok(first);
        }
        let all = self.more_opts(first, cursor)?;
        Ok(Ty::Inter(all))
    }

    /// One type that was read and those behind it, each of which a `|` leads.
    fn more_inters(&self, first: Ty, cursor: &mut Cursor<'_>) -> Result<Seq<Ty>, Refusal>
        requires types { Nests Rule.ty self.now.marked self.now.functions (T.pre self.now.ty) (T.post self.now.ty) }
        requires functions { Nests Rule.function self.now.marked self.now.functions (F.pre self.now.function) (F.post self.now.function) }
        ensures { ReadsIn self.now.marked self.now.functions (map_value (prepend first) (each (behind k.Bar spec.inter))) cursor.old result cursor.new }
    {
        let mut all = Seq::new(self.alloc);
        all.push(first)?;
        'items: while cursor.eat(Set::One(Kind::Bar)) {
            let next = self.inter(cursor)?;
            all.push(next)?;
        }
        Ok(all)
    }

    /// A union, or a type alone.
    #[tactic(auto, unfolding(rbs_grammar::specs::Types::union))]
    pub fn union(&self, cursor: &mut Cursor<'_>) -> Result<Ty, Refusal>
        requires types { Nests Rule.ty self.now.marked self.now.functions (T.pre self.now.ty) (T.post self.now.ty) }
        requires functions { Nests Rule.function self.now.marked self.now.functions (F.pre self.now.function) (F.post self.now.function) }
        ensures { ReadsIn self.now.marked self.now.functions spec.union cursor.old result cursor.new }
    {
        let first = self.inter(cursor)?;
        if !cursor.sees(Set::One(Kind::Bar)) {
            return Ok(first);
        }
        let all = self.more_inters(first, cursor)?;
        Ok(Ty::Union(all))
    }
}

/// The text of a token.
pub fn text_of(alloc: Global, token: &Token<'_>) -> Mem<Text>
    ensures { IfOk result (λ text. text ≡ token.now.text) }
{
    Text::from_str(alloc, token.text())
}

/// A type of this name, whose last word says which.
fn named_type(last: Kind, name: TypeName, args: Seq<Ty>) -> Ty
    ensures { result ≡ spec.named_type last name args }
{
    match last {
        Kind::Constant => Ty::Instance(name, args),
        Kind::InterfaceName => Ty::Interface(name, args),
        _ => Ty::Alias(name, args),
    }
}

fn absolute_type(colons: &Token<'_>, words: Words, args: Seq<Ty>) -> Ty
    ensures { result ≡ spec.absolute_type colons.now (words, args) }
{
    let at = Span {
        start: colons.at().start,
        end: words.at.end,
    };
    let name = TypeName {
        absolute: true,
        path: words.path,
        at,
    };
    named_type(words.last, name, args)
}

fn relative_type(words: Words, args: Seq<Ty>) -> Ty
    ensures { result ≡ spec.relative_type words args }
{
    let name = TypeName {
        absolute: false,
        path: words.path,
        at: words.at,
    };
    named_type(words.last, name, args)
}

/// The type that a token is.
fn single_of(alloc: Global, token: &Token<'_>) -> Mem<Ty>
    ensures { IfOk result (λ ty. ty ≡ spec.single_of token.now) }
{
    let ty = match token.kind() {
        Kind::Integer => Ty::IntLit(integer_value(token.text())),
        Kind::String => Ty::StrLit(string_value(alloc, token.text())?),
        Kind::Symbol => Ty::SymLit(symbol_value(alloc, token.text())?),
        Kind::True => Ty::True,
        Kind::False => Ty::False,
        Kind::SelfWord => Ty::SelfTy,
        Kind::Instance => Ty::InstanceTy,
        Kind::Class => Ty::ClassTy,
        Kind::Bool => Ty::Bool,
        Kind::Nil => Ty::Nil,
        Kind::Top => Ty::Top,
        Kind::Bot => Ty::Bot,
        Kind::Void => Ty::Void,
        _ => Ty::Untyped,
    };
    Ok(ty)
}

/// A type of one token.
fn single(alloc: Global, cursor: &mut Cursor<'_>) -> Result<Ty, Refusal>
    ensures { ReadsPlain (tok spec.is_single k.Nil spec.single_of) cursor.old result cursor.new }
{
    let token = cursor.expect(Set::Single)?;
    Ok(single_of(alloc, token)?)
}

/// A class or a module itself.
#[tactic(auto, unfolding(rbs_grammar::specs::Types::singleton))]
fn singleton(alloc: Global, cursor: &mut Cursor<'_>) -> Result<Ty, Refusal>
    ensures { ReadsPlain spec.singleton cursor.old result cursor.new }
{
    cursor.expect(Set::One(Kind::Singleton))?;
    cursor.expect(Set::One(Kind::LeftParen))?;
    let name = class_name(alloc, cursor)?;
    cursor.expect(Set::One(Kind::RightParen))?;
    Ok(Ty::Singleton(name))
}

/// Whether a type begins at the next token.
pub fn begins_type(cursor: &Cursor<'_>) -> bool
    ensures { result ≡ begins (start Rule.ty) cursor.now }
{
    match cursor.kind() {
        Some(
            Kind::LeftParen
            | Kind::LeftBracket
            | Kind::LeftBrace
            | Kind::Caret
            | Kind::Integer
            | Kind::String
            | Kind::Symbol
            | Kind::ColonColon,
        ) => true,
        _ => cursor.sees(Set::Word),
    }
}
