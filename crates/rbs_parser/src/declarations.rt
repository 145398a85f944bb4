ghost use Rattle.std.specs.Prelude.{◌≡◌, if◌then◌else◌, Some, IfOk, option_copied};
ghost use Rattle.rbs_grammar.specs.Grammar.{read, begins, first};
ghost use Rattle.rbs_grammar.specs.Levels.{rooms, read_in};
ghost use Rattle.rbs_grammar.specs.Rules.{Rule, start};
ghost use Rattle.rbs_grammar.specs.Members as members;
ghost use Rattle.rbs_grammar.specs.Declarations as spec;
ghost use Rattle.rbs_parser.specs.MemberParts as parts;
ghost use Rattle.rbs_parser.specs.Nests.{Nests};
ghost use Rattle.rbs_parser.specs.Reading.{Reads, ReadsIn};
ghost use Rattle.rbs_parser.specs.declared.refusal.Refusal.TheVariants as refusal;

use crate::lists::push;
use crate::members::Room;
use crate::types::text_of;
use crate::{Cursor, Refusal, Set};
use rbs_lexer::{Kind, Token};
use rbs_tree::{Decl, Member, Ref, Sign, TypeParam};
use src_text::{Mem, Seq};
use std::alloc::Global;

/// The reader of declarations, where so many rules may still be opened. It opens declarations by what it is given.
#[derive(Clone, Copy)]
pub struct Declarations<D> {
    pub room: Room,
    pub declaration: D,
}

impl Room {
    #[tactic(auto, unfolding(crate::specs::MemberParts::unchecked))]
    fn unchecked(&self, cursor: &mut Cursor<'_>) -> Result<bool, Refusal>
        ensures { ReadsIn self.now.marked self.now.functions parts.unchecked cursor.old result cursor.new }
    {
        if !cursor.sees(Set::One(Kind::Unchecked)) {
            return Ok(false);
        }
        cursor.expect(Set::One(Kind::Unchecked))?;
        Ok(true)
    }

    #[tactic(auto, unfolding(crate::specs::MemberParts::variance))]
    fn variance<'a>(&self, cursor: &mut Cursor<'a>) -> Result<Option<&'a Token<'a>>, Refusal>
        ensures { Reads (λ word. option_copied word) (read (read_in (rooms self.now.marked self.now.functions)) parts.variance cursor.old) result cursor.new }
    {
        if !cursor.sees(Set::Variance) {
            return Ok(None);
        }
        let word = cursor.expect(Set::Variance)?;
        Ok(Some(word))
    }

    #[tactic(auto, unfolding(rbs_grammar::specs::Declarations::type_param, crate::specs::MemberParts::variance, crate::specs::MemberParts::unchecked))]
    fn type_param(&self, cursor: &mut Cursor<'_>) -> Result<TypeParam, Refusal>
        ensures { ReadsIn self.now.marked self.now.functions spec.type_param cursor.old result cursor.new }
    {
        let unchecked = self.unchecked(cursor)?;
        let word = self.variance(cursor)?;
        let name = cursor.expect(Set::One(Kind::Constant))?;
        Ok(type_param_of(self.alloc, unchecked, word, name)?)
    }

    fn type_param_list(&self, cursor: &mut Cursor<'_>) -> Result<Seq<TypeParam>, Refusal>
        ensures { ReadsIn self.now.marked self.now.functions parts.type_param_list cursor.old result cursor.new }
    {
        let mut all = Seq::new(self.alloc);
        let first = self.type_param(cursor)?;
        all.push(first)?;
        'items: while cursor.eat(Set::One(Kind::Comma)) {
            let next = self.type_param(cursor)?;
            all.push(next)?;
        }
        Ok(all)
    }

    #[tactic(auto, unfolding(rbs_grammar::specs::Declarations::type_params, crate::specs::MemberParts::type_param_list))]
    fn type_params(&self, cursor: &mut Cursor<'_>) -> Result<Seq<TypeParam>, Refusal>
        ensures { ReadsIn self.now.marked self.now.functions spec.type_params cursor.old result cursor.new }
    {
        if !cursor.sees(Set::One(Kind::LeftBracket)) {
            return Ok(Seq::new(self.alloc));
        }
        cursor.expect(Set::One(Kind::LeftBracket))?;
        let params = self.type_param_list(cursor)?;
        cursor.expect(Set::One(Kind::RightBracket))?;
        Ok(params)
    }

    #[tactic(auto, unfolding(crate::specs::MemberParts::class_reference))]
    fn class_reference(&self, cursor: &mut Cursor<'_>) -> Result<Ref, Refusal>
        ensures { ReadsIn self.now.marked self.now.functions parts.class_reference cursor.old result cursor.new }
    {
        let name = self.class_name(cursor)?;
        let args = self.some_type_args(cursor)?;
        Ok(Ref { name, args })
    }

    #[tactic(auto, unfolding(rbs_grammar::specs::Declarations::superclass, crate::specs::MemberParts::class_reference, crate::specs::MemberParts::some_type_args))]
    fn superclass(&self, cursor: &mut Cursor<'_>) -> Result<Option<Ref>, Refusal>
        ensures { ReadsIn self.now.marked self.now.functions spec.superclass cursor.old result cursor.new }
    {
        if !cursor.sees(Set::One(Kind::Less)) {
            return Ok(None);
        }
        cursor.expect(Set::One(Kind::Less))?;
        let superclass = self.class_reference(cursor)?;
        Ok(Some(superclass))
    }

    fn references(&self, cursor: &mut Cursor<'_>) -> Result<Seq<Ref>, Refusal>
        ensures { ReadsIn self.now.marked self.now.functions parts.references cursor.old result cursor.new }
    {
        let mut all = Seq::new(self.alloc);
        let first = self.reference(cursor)?;
        all.push(first)?;
        'items: while cursor.eat(Set::One(Kind::Comma)) {
            let next = self.reference(cursor)?;
            all.push(next)?;
        }
        Ok(all)
    }

    #[tactic(auto, unfolding(rbs_grammar::specs::Declarations::self_types, crate::specs::MemberParts::references))]
    fn self_types(&self, cursor: &mut Cursor<'_>) -> Result<Seq<Ref>, Refusal>
        ensures { ReadsIn self.now.marked self.now.functions spec.self_types cursor.old result cursor.new }
    {
        if !cursor.sees(Set::One(Kind::Colon)) {
            return Ok(Seq::new(self.alloc));
        }
        cursor.expect(Set::One(Kind::Colon))?;
        self.references(cursor)
    }

    fn interface_members(&self, cursor: &mut Cursor<'_>) -> Result<Seq<Member>, Refusal>
        ensures { ReadsIn self.now.marked self.now.functions parts.interface_members cursor.old result cursor.new }
    {
        let mut all = Seq::new(self.alloc);
        'items: while begins_interface_member(cursor) {
            let next = self.interface_member(cursor)?;
            all.push(next)?;
        }
        Ok(all)
    }

    #[tactic(auto, unfolding(rbs_grammar::specs::Declarations::interface_decl, crate::specs::MemberParts::interface_members))]
    fn interface_decl(&self, cursor: &mut Cursor<'_>) -> Result<Decl, Refusal>
        ensures { ReadsIn self.now.marked self.now.functions spec.interface_decl cursor.old result cursor.new }
    {
        cursor.expect(Set::One(Kind::Interface))?;
        let name = self.interface_name(cursor)?;
        let params = self.type_params(cursor)?;
        let members = self.interface_members(cursor)?;
        cursor.expect(Set::One(Kind::End))?;
        Ok(Decl::Interface {
            name,
            params,
            members,
        })
    }

    #[tactic(auto, unfolding(rbs_grammar::specs::Declarations::alias_decl))]
    fn alias_decl(&self, cursor: &mut Cursor<'_>) -> Result<Decl, Refusal>
        ensures { ReadsIn self.now.marked self.now.functions spec.alias_decl cursor.old result cursor.new }
    {
        cursor.expect(Set::One(Kind::Type))?;
        let name = self.alias_name(cursor)?;
        let params = self.type_params(cursor)?;
        cursor.expect(Set::One(Kind::Equals))?;
        let ty = self.a_type(cursor)?;
        Ok(Decl::Alias { name, params, ty })
    }

    #[tactic(auto, unfolding(rbs_grammar::specs::Declarations::constant_decl))]
    fn constant_decl(&self, cursor: &mut Cursor<'_>) -> Result<Decl, Refusal>
        ensures { ReadsIn self.now.marked self.now.functions spec.constant_decl cursor.old result cursor.new }
    {
        let name = self.class_name(cursor)?;
        cursor.expect(Set::One(Kind::Colon))?;
        let ty = self.a_type(cursor)?;
        Ok(Decl::Constant { name, ty })
    }

    #[tactic(auto, unfolding(rbs_grammar::specs::Declarations::global_decl))]
    fn global_decl(&self, cursor: &mut Cursor<'_>) -> Result<Decl, Refusal>
        ensures { ReadsIn self.now.marked self.now.functions spec.global_decl cursor.old result cursor.new }
    {
        let name = cursor.expect(Set::One(Kind::Global))?;
        cursor.expect(Set::One(Kind::Colon))?;
        let ty = self.a_type(cursor)?;
        Ok(Decl::Global {
            name: text_of(self.alloc, name)?,
            at: name.at(),
            ty,
        })
    }

    /// A declaration without members, or an interface.
    #[tactic(auto, unfolding(crate::specs::MemberParts::flat_declaration, rbs_grammar::specs::Declarations::interface_decl, rbs_grammar::specs::Declarations::alias_decl, rbs_grammar::specs::Declarations::constant_decl, rbs_grammar::specs::Declarations::global_decl))]
    fn flat_declaration(&self, cursor: &mut Cursor<'_>) -> Result<Decl, Refusal>
        ensures { ReadsIn self.now.marked self.now.functions parts.flat_declaration cursor.old result cursor.new }
    {
        if cursor.sees(Set::One(Kind::Interface)) {
            return self.interface_decl(cursor);
        }
        if cursor.sees(Set::One(Kind::Type)) {
            return self.alias_decl(cursor);
        }
        if begins_constant(cursor) {
            return self.constant_decl(cursor);
        }
        self.global_decl(cursor)
    }
}

fn type_param_of(
    alloc: Global,
    unchecked: bool,
    word: Option<&Token<'_>>,
    name: &Token<'_>,
) -> Mem<TypeParam>
    ensures { IfOk result (λ p. p ≡ spec.type_param_of unchecked (option_copied word.entry, name.now)) }
{
    Ok(TypeParam {
        name: text_of(alloc, name)?,
        at: name.at(),
        unchecked,
        sign: sign_of(word),
        bound: None,
    })
}

fn sign_of(word: Option<&Token<'_>>) -> Sign
    ensures { result ≡ spec.sign_of (option_copied word.entry) }
{
    match word {
        None => Sign::Unmarked,
        Some(word) => sign_of_word(word),
    }
}

fn sign_of_word(word: &Token<'_>) -> Sign
    ensures { result ≡ spec.sign_of (Some word.now) }
{
    match word.kind() {
        Kind::Out => Sign::Covariant,
        _ => Sign::Contravariant,
    }
}

/// Whether a declaration begins at the next token.
fn begins_declaration(cursor: &Cursor<'_>) -> bool
    ensures { result ≡ begins (start Rule.declaration) cursor.now }
{
    match cursor.kind() {
        Some(
            Kind::Class
            | Kind::Module
            | Kind::Interface
            | Kind::Type
            | Kind::Constant
            | Kind::ColonColon
            | Kind::Global,
        ) => true,
        _ => false,
    }
}

/// Whether the declaration of a constant begins at the next token.
#[tactic(auto, unfolding(rbs_grammar::specs::Declarations::constant_decl, rbs_grammar::specs::Names::class_name, rbs_grammar::specs::Names::constants))]
fn begins_constant(cursor: &Cursor<'_>) -> bool
    ensures { result ≡ begins (first spec.constant_decl) cursor.now }
{
    match cursor.kind() {
        Some(Kind::Constant | Kind::ColonColon) => true,
        _ => false,
    }
}

/// Whether a member of an interface begins at the next token.
#[tactic(auto, unfolding(rbs_grammar::specs::Members::interface_member))]
fn begins_interface_member(cursor: &Cursor<'_>) -> bool
    ensures { result ≡ begins (first members.interface_member) cursor.now }
{
    match cursor.kind() {
        Some(Kind::Def | Kind::Include | Kind::Alias) => true,
        _ => false,
    }
}

/// Whether a member of a class or a module begins at the next token.
#[tactic(auto, unfolding(rbs_grammar::specs::Members::member, rbs_grammar::specs::Members::a_declaration, rbs_grammar::specs::Members::method, rbs_grammar::specs::Members::mixin, rbs_grammar::specs::Members::alias, rbs_grammar::specs::Members::visible, rbs_grammar::specs::Members::variable))]
fn begins_member(cursor: &Cursor<'_>) -> bool
    ensures { result ≡ begins (first members.member) cursor.now }
{
    match cursor.kind() {
        Some(
            Kind::Class
            | Kind::Module
            | Kind::Interface
            | Kind::Type
            | Kind::Constant
            | Kind::ColonColon
            | Kind::Global
            | Kind::Def
            | Kind::AttrReader
            | Kind::AttrWriter
            | Kind::AttrAccessor
            | Kind::Include
            | Kind::Extend
            | Kind::Prepend
            | Kind::Alias
            | Kind::Public
            | Kind::Private
            | Kind::InstanceVariable
            | Kind::SelfWord
            | Kind::ClassVariable,
        ) => true,
        _ => false,
    }
}

/// Why a rule is not read where no more rules may be opened, by whether it begins at the next token.
fn no_room(begun: bool) -> Refusal
    ensures { result ≡ if begun then refusal.TooDeep else refusal.Syntax }
{
    if begun {
        Refusal::TooDeep
    } else {
        Refusal::Syntax
    }
}

impl<D: Fn(Global, &mut Cursor<'_>, usize, usize) -> Result<Decl, Refusal>> Declarations<D> {
    #[tactic(auto, using(crate::proofs::Same::same_read), unfolding(rbs_grammar::specs::Members::a_declaration))]
    fn a_declaration(&self, cursor: &mut Cursor<'_>) -> Result<Decl, Refusal>
        requires { Nests Rule.declaration self.now.room.marked self.now.room.functions (D.pre self.now.declaration) (D.post self.now.declaration) }
        ensures { ReadsIn self.now.room.marked self.now.room.functions members.a_declaration cursor.old result cursor.new }
    {
        (self.declaration)(
            self.room.alloc,
            cursor,
            self.room.marked,
            self.room.functions,
        )
    }

    #[tactic(auto, unfolding(rbs_grammar::specs::Members::member, rbs_grammar::specs::Members::a_declaration, crate::specs::MemberParts::plain_member, crate::specs::MemberParts::attribute))]
    fn member(&self, cursor: &mut Cursor<'_>) -> Result<Member, Refusal>
        requires { Nests Rule.declaration self.now.room.marked self.now.room.functions (D.pre self.now.declaration) (D.post self.now.declaration) }
        ensures { ReadsIn self.now.room.marked self.now.room.functions members.member cursor.old result cursor.new }
    {
        if begins_declaration(cursor) {
            let nested = self.a_declaration(cursor)?;
            Ok(Member::Nested(nested))
        } else {
            self.room.plain_member(cursor)
        }
    }

    fn members(&self, cursor: &mut Cursor<'_>) -> Result<Seq<Member>, Refusal>
        requires { Nests Rule.declaration self.now.room.marked self.now.room.functions (D.pre self.now.declaration) (D.post self.now.declaration) }
        ensures { ReadsIn self.now.room.marked self.now.room.functions parts.class_members cursor.old result cursor.new }
    {
        let mut all = Seq::new(self.room.alloc);
        'items: while begins_member(cursor) {
            let next = self.member(cursor)?;
            push(self.room.alloc, &mut all, next)?;
        }
        Ok(all)
    }

    #[tactic(auto, unfolding(rbs_grammar::specs::Declarations::class_decl, crate::specs::MemberParts::class_members))]
    fn class_decl(&self, cursor: &mut Cursor<'_>) -> Result<Decl, Refusal>
        requires { Nests Rule.declaration self.now.room.marked self.now.room.functions (D.pre self.now.declaration) (D.post self.now.declaration) }
        ensures { ReadsIn self.now.room.marked self.now.room.functions spec.class_decl cursor.old result cursor.new }
    {
        cursor.expect(Set::One(Kind::Class))?;
        let name = self.room.class_name(cursor)?;
        let params = self.room.type_params(cursor)?;
        let superclass = self.room.superclass(cursor)?;
        let members = self.members(cursor)?;
        cursor.expect(Set::One(Kind::End))?;
        Ok(Decl::Class {
            name,
            params,
            superclass,
            members,
        })
    }

    #[tactic(auto, unfolding(rbs_grammar::specs::Declarations::module_decl, crate::specs::MemberParts::class_members))]
    fn module_decl(&self, cursor: &mut Cursor<'_>) -> Result<Decl, Refusal>
        requires { Nests Rule.declaration self.now.room.marked self.now.room.functions (D.pre self.now.declaration) (D.post self.now.declaration) }
        ensures { ReadsIn self.now.room.marked self.now.room.functions spec.module_decl cursor.old result cursor.new }
    {
        cursor.expect(Set::One(Kind::Module))?;
        let name = self.room.class_name(cursor)?;
        let params = self.room.type_params(cursor)?;
        let self_types = self.room.self_types(cursor)?;
        let members = self.members(cursor)?;
        cursor.expect(Set::One(Kind::End))?;
        Ok(Decl::Module {
            name,
            params,
            self_types,
            members,
        })
    }

    #[tactic(auto, unfolding(rbs_grammar::specs::Declarations::declaration, crate::specs::MemberParts::flat_declaration, rbs_grammar::specs::Declarations::class_decl, rbs_grammar::specs::Declarations::module_decl))]
    fn declaration(&self, cursor: &mut Cursor<'_>) -> Result<Decl, Refusal>
        requires { Nests Rule.declaration self.now.room.marked self.now.room.functions (D.pre self.now.declaration) (D.post self.now.declaration) }
        ensures { ReadsIn self.now.room.marked self.now.room.functions spec.declaration cursor.old result cursor.new }
    {
        if cursor.sees(Set::One(Kind::Class)) {
            return self.class_decl(cursor);
        }
        if cursor.sees(Set::One(Kind::Module)) {
            return self.module_decl(cursor);
        }
        self.room.flat_declaration(cursor)
    }

    fn declarations(&self, cursor: &mut Cursor<'_>) -> Result<Seq<Decl>, Refusal>
        requires { Nests Rule.declaration self.now.room.marked self.now.room.functions (D.pre self.now.declaration) (D.post self.now.declaration) }
        ensures { ReadsIn self.now.room.marked self.now.room.functions spec.file cursor.old result cursor.new }
    {
        let mut all = Seq::new(self.room.alloc);
        'items: while begins_declaration(cursor) {
            let next = self.a_declaration(cursor)?;
            all.push(next)?;
        }
        Ok(all)
    }
}

/// A declaration, where so many marked rules and so many functions may still be opened.
pub fn declaration(
    alloc: Global,
    cursor: &mut Cursor<'_>,
    marked: usize,
    functions: usize,
) -> Result<Decl, Refusal>
    ensures { Reads (λ x. x) (read_in (rooms marked functions) Rule.declaration cursor.old) result cursor.new }
{
    if marked == 0 {
        return Err(no_room(begins_declaration(cursor)));
    }
    Declarations {
        room: Room {
            alloc,
            marked: marked - 1,
            functions,
        },
        declaration,
    }
    .declaration(cursor)
}

/// All declarations of a text, where so many marked rules and so many functions may still be opened.
pub fn file(
    alloc: Global,
    cursor: &mut Cursor<'_>,
    marked: usize,
    functions: usize,
) -> Result<Seq<Decl>, Refusal>
    ensures { ReadsIn marked functions spec.file cursor.old result cursor.new }
{
    Declarations {
        room: Room {
            alloc,
            marked,
            functions,
        },
        declaration,
    }
    .declarations(cursor)
}
