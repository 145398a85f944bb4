ghost use Rattle.std.specs.Prelude.{◌≡◌, Some, false, IfOk, OnOk, option_map};
ghost use Rattle.rbs_grammar.specs.declared.stage.Stage.TheVariants as at;
ghost use Rattle.rbs_grammar.specs.Grammar.{read, read_token, begins, first};
ghost use Rattle.rbs_grammar.specs.Parts.{same, map_value};
ghost use Rattle.rbs_grammar.specs.Levels.{rooms, read_in};
ghost use Rattle.rbs_grammar.specs.Rules.{on_the_line};
ghost use Rattle.rbs_grammar.specs.Names as names;
ghost use Rattle.rbs_grammar.specs.Types as types;
ghost use Rattle.rbs_grammar.specs.Functions as functions;
ghost use Rattle.rbs_grammar.specs.Members as spec;
ghost use Rattle.rbs_parser.specs.MemberParts as parts;
ghost use Rattle.rbs_parser.specs.Reading.{Reads, ReadsIn};
ghost use Rattle.rbs_parser.specs.Sets.{tokens_of};

use crate::functions::{function, method_type, ty};
use crate::lists::push;
use crate::names::{alias_name, class_name, interface_name, module_name};
use crate::types::{Types, text_of};
use crate::values::method_name_value;
use crate::{Cursor, Refusal, Set};
use rbs_grammar::{Overloads, Stage};
use rbs_lexer::{Kind, Token};
use rbs_tree::{AttrVar, Member, MethodType, Ref, Side, Ty, TypeName, VarScope};
use src_text::{Mem, Seq, Span, Text};
use std::alloc::Global;

/// Where so many rules may still be opened.
#[derive(Clone, Copy)]
pub struct Room {
    pub alloc: Global,
    /// How many marked rules may still be opened.
    pub marked: usize,
    /// How many functions may still be opened.
    pub functions: usize,
}

/// A method or an attribute, before its visibility is known.
#[derive(Debug, Drop)]
enum Visible {
    Method {
        name: Text,
        at: Span,
        side: Side,
        overloads: Overloads,
    },
    Attribute {
        name: Text,
        at: Span,
        side: Side,
        reads: bool,
        writes: bool,
        variable: AttrVar,
        ty: Ty,
    },
}

impl Visible {
    /// The member, by the word of visibility before it.
    fn member(self, public: Option<bool>) -> Member
        ensures { result ≡ parts.visible self public }
    {
        match self {
            Visible::Method {
                name,
                at,
                side,
                overloads,
            } => Member::Def {
                name,
                at,
                side,
                public,
                overloads: overloads.methods,
                more: overloads.more,
            },
            Visible::Attribute {
                name,
                at,
                side,
                reads,
                writes,
                variable,
                ty,
            } => Member::Attr {
                name,
                at,
                side,
                public,
                reads,
                writes,
                variable,
                ty,
            },
        }
    }
}

impl Room {
    #[tactic(auto, using(crate::proofs::Same::same_read), unfolding(rbs_grammar::specs::Types::a_type))]
    pub fn a_type(&self, cursor: &mut Cursor<'_>) -> Result<Ty, Refusal>
        ensures { ReadsIn self.now.marked self.now.functions types.a_type cursor.old result cursor.new }
    {
        ty(self.alloc, cursor, self.marked, self.functions)
    }

    #[tactic(auto, using(crate::proofs::Anywhere::class_anywhere))]
    pub fn class_name(&self, cursor: &mut Cursor<'_>) -> Result<TypeName, Refusal>
        ensures { ReadsIn self.now.marked self.now.functions names.class_name cursor.old result cursor.new }
    {
        class_name(self.alloc, cursor)
    }

    #[tactic(auto, using(crate::proofs::Anywhere::interface_anywhere))]
    pub fn interface_name(&self, cursor: &mut Cursor<'_>) -> Result<TypeName, Refusal>
        ensures { ReadsIn self.now.marked self.now.functions names.interface_name cursor.old result cursor.new }
    {
        interface_name(self.alloc, cursor)
    }

    #[tactic(auto, using(crate::proofs::Anywhere::alias_anywhere))]
    pub fn alias_name(&self, cursor: &mut Cursor<'_>) -> Result<TypeName, Refusal>
        ensures { ReadsIn self.now.marked self.now.functions names.alias_name cursor.old result cursor.new }
    {
        alias_name(self.alloc, cursor)
    }

    #[tactic(auto, using(crate::proofs::Anywhere::module_anywhere))]
    pub fn module_name(&self, cursor: &mut Cursor<'_>) -> Result<TypeName, Refusal>
        ensures { ReadsIn self.now.marked self.now.functions names.module_name cursor.old result cursor.new }
    {
        module_name(self.alloc, cursor)
    }

    fn method_type(&self, cursor: &mut Cursor<'_>) -> Result<MethodType, Refusal>
        ensures { ReadsIn self.now.marked self.now.functions functions.method_type cursor.old result cursor.new }
    {
        method_type(self.alloc, cursor, self.marked, self.functions)
    }

    fn type_args(&self, cursor: &mut Cursor<'_>) -> Result<Seq<Ty>, Refusal>
        ensures { ReadsIn self.now.marked self.now.functions types.type_args cursor.old result cursor.new }
    {
        Types {
            alloc: self.alloc,
            marked: self.marked,
            functions: self.functions,
            ty,
            function,
        }
        .type_args(cursor)
    }

    #[tactic(auto, unfolding(crate::specs::MemberParts::some_type_args, rbs_grammar::specs::Types::type_args))]
    pub fn some_type_args(&self, cursor: &mut Cursor<'_>) -> Result<Seq<Ty>, Refusal>
        ensures { ReadsIn self.now.marked self.now.functions parts.some_type_args cursor.old result cursor.new }
    {
        if !cursor.sees(Set::One(Kind::LeftBracket)) {
            return Ok(Seq::new(self.alloc));
        }
        self.type_args(cursor)
    }

    #[tactic(auto, using(crate::proofs::References::same_reference), unfolding(crate::specs::MemberParts::reference))]
    pub fn reference(&self, cursor: &mut Cursor<'_>) -> Result<Ref, Refusal>
        ensures { ReadsIn self.now.marked self.now.functions spec.ref cursor.old result cursor.new }
    {
        let name = self.module_name(cursor)?;
        let args = self.some_type_args(cursor)?;
        Ok(Ref { name, args })
    }

    #[tactic(auto, unfolding(rbs_grammar::specs::Members::mixin))]
    fn mixin(&self, cursor: &mut Cursor<'_>) -> Result<Member, Refusal>
        ensures { ReadsIn self.now.marked self.now.functions spec.mixin cursor.old result cursor.new }
    {
        let word = cursor.expect(Set::Mixin)?;
        let reference = self.reference(cursor)?;
        Ok(mixin_of(word, reference))
    }

    #[tactic(auto, unfolding(rbs_grammar::specs::Members::alias, crate::specs::MemberParts::alias_of_self, crate::specs::MemberParts::alias_of_other, crate::specs::MemberParts::name_but_self))]
    fn alias(&self, cursor: &mut Cursor<'_>) -> Result<Member, Refusal>
        ensures { ReadsIn self.now.marked self.now.functions spec.alias cursor.old result cursor.new }
    {
        cursor.expect(Set::One(Kind::Alias))?;
        if cursor.sees(Set::One(Kind::SelfWord)) {
            self.alias_of_self(cursor)
        } else {
            self.alias_of_other(cursor)
        }
    }

    #[tactic(auto, unfolding(crate::specs::MemberParts::alias_of_self))]
    fn alias_of_self(&self, cursor: &mut Cursor<'_>) -> Result<Member, Refusal>
        ensures { ReadsIn self.now.marked self.now.functions parts.alias_of_self cursor.old result cursor.new }
    {
        let word = cursor.expect(Set::One(Kind::SelfWord))?;
        if cursor.sees(Set::One(Kind::Dot)) {
            cursor.expect(Set::One(Kind::Dot))?;
            let new = cursor.expect(Set::Name)?;
            cursor.expect(Set::One(Kind::SelfWord))?;
            cursor.expect(Set::One(Kind::Dot))?;
            let old = cursor.expect(Set::Name)?;
            Ok(alias_of(self.alloc, Side::Singleton, new, old)?)
        } else {
            let old = cursor.expect(Set::Name)?;
            Ok(alias_of(self.alloc, Side::Instance, word, old)?)
        }
    }

    #[tactic(auto, unfolding(crate::specs::MemberParts::alias_of_other))]
    fn alias_of_other(&self, cursor: &mut Cursor<'_>) -> Result<Member, Refusal>
        ensures { ReadsIn self.now.marked self.now.functions parts.alias_of_other cursor.old result cursor.new }
    {
        let new = self.name_but_self(cursor)?;
        let old = cursor.expect(Set::Name)?;
        Ok(alias_of(self.alloc, Side::Instance, new, old)?)
    }

    #[tactic(auto, unfolding(crate::specs::MemberParts::name_but_self))]
    fn name_but_self<'a>(&self, cursor: &mut Cursor<'a>) -> Result<&'a Token<'a>, Refusal>
        ensures { Reads (λ t. t.now) (read (read_in (rooms self.now.marked self.now.functions)) parts.name_but_self cursor.old) result cursor.new }
    {
        if cursor.sees(Set::One(Kind::SelfQuestion)) {
            cursor.expect(Set::One(Kind::SelfQuestion))
        } else {
            cursor.expect(Set::OtherName)
        }
    }

    #[tactic(auto, unfolding(rbs_grammar::specs::Members::variable))]
    fn variable(&self, cursor: &mut Cursor<'_>) -> Result<Member, Refusal>
        ensures { ReadsIn self.now.marked self.now.functions spec.variable cursor.old result cursor.new }
    {
        if cursor.sees(Set::One(Kind::InstanceVariable)) {
            let name = cursor.expect(Set::One(Kind::InstanceVariable))?;
            cursor.expect(Set::One(Kind::Colon))?;
            let ty = self.a_type(cursor)?;
            return Ok(variable_of(self.alloc, VarScope::Instance, name, ty)?);
        }
        if cursor.sees(Set::One(Kind::SelfWord)) {
            cursor.expect(Set::One(Kind::SelfWord))?;
            cursor.expect(Set::One(Kind::Dot))?;
            let name = cursor.expect(Set::One(Kind::InstanceVariable))?;
            cursor.expect(Set::One(Kind::Colon))?;
            let ty = self.a_type(cursor)?;
            return Ok(variable_of(self.alloc, VarScope::Singleton, name, ty)?);
        }
        let name = cursor.expect(Set::One(Kind::ClassVariable))?;
        cursor.expect(Set::One(Kind::Colon))?;
        let ty = self.a_type(cursor)?;
        Ok(variable_of(self.alloc, VarScope::Class, name, ty)?)
    }

    /// The name behind `self.`, or `self` as a name.
    #[tactic(auto, unfolding(crate::specs::MemberParts::name_of_self))]
    fn name_of_self<'a>(&self, cursor: &mut Cursor<'a>) -> Result<(Side, &'a Token<'a>), Refusal>
        ensures { Reads (λ p. (p.0, p.1.now)) (read (read_in (rooms self.now.marked self.now.functions)) parts.name_of_self cursor.old) result cursor.new }
    {
        let word = cursor.expect(Set::One(Kind::SelfWord))?;
        if !cursor.sees(Set::One(Kind::Dot)) {
            return Ok((Side::Instance, word));
        }
        cursor.expect(Set::One(Kind::Dot))?;
        let name = cursor.expect(Set::Name)?;
        Ok((Side::Singleton, name))
    }

    /// The name behind `self?.`, or `self?` as a name.
    #[tactic(auto, unfolding(crate::specs::MemberParts::name_of_both))]
    fn name_of_both<'a>(&self, cursor: &mut Cursor<'a>) -> Result<(Side, &'a Token<'a>), Refusal>
        ensures { Reads (λ p. (p.0, p.1.now)) (read (read_in (rooms self.now.marked self.now.functions)) parts.name_of_both cursor.old) result cursor.new }
    {
        let word = cursor.expect(Set::One(Kind::SelfQuestion))?;
        if !cursor.sees(Set::One(Kind::Dot)) {
            return Ok((Side::Instance, word));
        }
        cursor.expect(Set::One(Kind::Dot))?;
        let name = cursor.expect(Set::Name)?;
        Ok((Side::Both, name))
    }

    #[tactic(auto, unfolding(rbs_grammar::specs::Members::attribute_name, crate::specs::MemberParts::name_of_self, crate::specs::MemberParts::name_but_self))]
    fn attribute_name<'a>(&self, cursor: &mut Cursor<'a>) -> Result<(Side, &'a Token<'a>), Refusal>
        ensures { Reads (λ p. (p.0, p.1.now)) (read (read_in (rooms self.now.marked self.now.functions)) spec.attribute_name cursor.old) result cursor.new }
    {
        if cursor.sees(Set::One(Kind::SelfWord)) {
            return self.name_of_self(cursor);
        }
        let name = self.name_but_self(cursor)?;
        Ok((Side::Instance, name))
    }

    #[tactic(auto, unfolding(rbs_grammar::specs::Members::defined_name, crate::specs::MemberParts::name_of_self, crate::specs::MemberParts::name_of_both))]
    fn defined_name<'a>(&self, cursor: &mut Cursor<'a>) -> Result<(Side, &'a Token<'a>), Refusal>
        ensures { Reads (λ p. (p.0, p.1.now)) (read (read_in (rooms self.now.marked self.now.functions)) spec.defined_name cursor.old) result cursor.new }
    {
        if cursor.sees(Set::One(Kind::SelfWord)) {
            return self.name_of_self(cursor);
        }
        if cursor.sees(Set::One(Kind::SelfQuestion)) {
            return self.name_of_both(cursor);
        }
        let name = cursor.expect(Set::OtherName)?;
        Ok((Side::Instance, name))
    }

    fn overloads(&self, cursor: &mut Cursor<'_>) -> Result<Overloads, Refusal>
        ensures { ReadsIn self.now.marked self.now.functions spec.overloads cursor.old result cursor.new }
    {
        let first = self.method_type(cursor)?;
        let mut found = Overloads {
            methods: Seq::new(self.alloc),
            more: false,
        };
        push_overload(self.alloc, &mut found, Some(first))?;
        let mut stage = Stage::Open;
        'items: while goes_on(cursor, stage) {
            let next = self.next_overload(cursor)?;
            push_overload(self.alloc, &mut found, next.0)?;
            stage = next.1;
        }
        Ok(found)
    }

    /// `|`, and a method type or `...`.
    fn next_overload(&self, cursor: &mut Cursor<'_>) -> Result<(Option<MethodType>, Stage), Refusal>
        ensures { ReadsIn self.now.marked self.now.functions (spec.next_overload at.Open) cursor.old result cursor.new }
    {
        cursor.expect(Set::One(Kind::Bar))?;
        if begins_overload(cursor) {
            let method = self.method_type(cursor)?;
            Ok((Some(method), Stage::Open))
        } else {
            cursor.expect(Set::One(Kind::Ellipsis))?;
            Ok((None, Stage::Done))
        }
    }

    #[tactic(auto, unfolding(rbs_grammar::specs::Members::method))]
    fn method(&self, cursor: &mut Cursor<'_>) -> Result<Visible, Refusal>
        ensures { Reads parts.visible (read (read_in (rooms self.now.marked self.now.functions)) spec.method cursor.old) result cursor.new }
    {
        cursor.expect(Set::One(Kind::Def))?;
        let (side, name) = self.defined_name(cursor)?;
        cursor.expect(Set::One(Kind::Colon))?;
        let overloads = self.overloads(cursor)?;
        Ok(method_of(self.alloc, side, name, overloads)?)
    }

    #[tactic(auto, unfolding(rbs_grammar::specs::Members::shown_method))]
    fn shown_method(&self, cursor: &mut Cursor<'_>) -> Result<Visible, Refusal>
        ensures { Reads parts.visible (read (read_in (rooms self.now.marked self.now.functions)) spec.shown_method cursor.old) result cursor.new }
    {
        expect_on_line(cursor, Set::One(Kind::Def))?;
        let (side, name) = self.attribute_name(cursor)?;
        cursor.expect(Set::One(Kind::Colon))?;
        let overloads = self.overloads(cursor)?;
        Ok(method_of(self.alloc, side, name, overloads)?)
    }

    #[tactic(auto, unfolding(crate::specs::MemberParts::variable_name))]
    fn variable_name(&self, cursor: &mut Cursor<'_>) -> Result<Option<Text>, Refusal>
        ensures { ReadsIn self.now.marked self.now.functions parts.variable_name cursor.old result cursor.new }
    {
        if !cursor.sees(Set::One(Kind::InstanceVariable)) {
            return Ok(None);
        }
        let name = cursor.expect(Set::One(Kind::InstanceVariable))?;
        Ok(Some(text_of(self.alloc, name)?))
    }

    #[tactic(auto, unfolding(rbs_grammar::specs::Members::bracketed_variable, crate::specs::MemberParts::variable_name))]
    fn bracketed_variable(&self, cursor: &mut Cursor<'_>) -> Result<Option<Text>, Refusal>
        ensures { ReadsIn self.now.marked self.now.functions spec.bracketed_variable cursor.old result cursor.new }
    {
        cursor.expect(Set::One(Kind::LeftParen))?;
        let name = self.variable_name(cursor)?;
        cursor.expect(Set::One(Kind::RightParen))?;
        Ok(name)
    }

    #[tactic(auto, unfolding(crate::specs::MemberParts::attribute_variable, rbs_grammar::specs::Members::bracketed_variable))]
    fn attribute_variable(&self, cursor: &mut Cursor<'_>) -> Result<AttrVar, Refusal>
        ensures { ReadsIn self.now.marked self.now.functions parts.attribute_variable cursor.old result cursor.new }
    {
        if !cursor.sees(Set::One(Kind::LeftParen)) {
            return Ok(AttrVar::Same);
        }
        let name = self.bracketed_variable(cursor)?;
        Ok(in_brackets(name))
    }

    /// What stands behind the word of an attribute.
    #[tactic(auto, unfolding(crate::specs::MemberParts::attribute_parts))]
    fn attribute_parts<'a>(
        &self,
        cursor: &mut Cursor<'a>,
    ) -> Result<((Side, &'a Token<'a>), (AttrVar, Ty)), Refusal>
        ensures { Reads (λ p. ((p.0.0, p.0.1.now), p.1)) (read (read_in (rooms self.now.marked self.now.functions)) parts.attribute_parts cursor.old) result cursor.new }
    {
        let name = self.attribute_name(cursor)?;
        let variable = self.attribute_variable(cursor)?;
        cursor.expect(Set::One(Kind::Colon))?;
        let ty = self.a_type(cursor)?;
        Ok((name, (variable, ty)))
    }

    #[tactic(auto, unfolding(crate::specs::MemberParts::attribute, crate::specs::MemberParts::attribute_parts, crate::specs::MemberParts::attribute_variable))]
    fn attribute(&self, cursor: &mut Cursor<'_>) -> Result<Visible, Refusal>
        ensures { Reads parts.visible (read (read_in (rooms self.now.marked self.now.functions)) parts.attribute cursor.old) result cursor.new }
    {
        let word = cursor.expect(Set::Attribute)?;
        let (name, end) = self.attribute_parts(cursor)?;
        Ok(attribute_of(self.alloc, word, name, end)?)
    }

    #[tactic(auto, unfolding(crate::specs::MemberParts::shown_attribute, crate::specs::MemberParts::attribute_parts, crate::specs::MemberParts::attribute_variable))]
    fn shown_attribute(&self, cursor: &mut Cursor<'_>) -> Result<Visible, Refusal>
        ensures { Reads parts.visible (read (read_in (rooms self.now.marked self.now.functions)) parts.shown_attribute cursor.old) result cursor.new }
    {
        let word = expect_on_line(cursor, Set::Attribute)?;
        let (name, end) = self.attribute_parts(cursor)?;
        Ok(attribute_of(self.alloc, word, name, end)?)
    }

    #[tactic(auto, unfolding(crate::specs::MemberParts::shown, crate::specs::MemberParts::shown_attribute, rbs_grammar::specs::Members::shown_method))]
    fn shown(&self, cursor: &mut Cursor<'_>) -> Result<Visible, Refusal>
        ensures { Reads parts.visible (read (read_in (rooms self.now.marked self.now.functions)) parts.shown cursor.old) result cursor.new }
    {
        if cursor.sees_on_line(Set::One(Kind::Def)) {
            self.shown_method(cursor)
        } else {
            self.shown_attribute(cursor)
        }
    }

    /// The method or the attribute that a word of visibility stands before.
    #[tactic(auto, unfolding(crate::specs::MemberParts::shown_member))]
    fn shown_member(&self, cursor: &mut Cursor<'_>) -> Result<Option<Visible>, Refusal>
        ensures { Reads (λ v. option_map parts.visible v) (read (read_in (rooms self.now.marked self.now.functions)) parts.shown_member cursor.old) result cursor.new }
    {
        if !begins_shown(cursor) {
            return Ok(None);
        }
        let member = self.shown(cursor)?;
        Ok(Some(member))
    }

    #[tactic(auto, unfolding(rbs_grammar::specs::Members::visible, crate::specs::MemberParts::shown_member, crate::specs::MemberParts::shown, crate::specs::MemberParts::shown_attribute))]
    fn visible(&self, cursor: &mut Cursor<'_>) -> Result<Member, Refusal>
        ensures { ReadsIn self.now.marked self.now.functions spec.visible cursor.old result cursor.new }
    {
        let word = cursor.expect(Set::Visibility)?;
        let member = self.shown_member(cursor)?;
        Ok(visible_of(word, member))
    }

    /// A member that is no declaration.
    #[tactic(auto, unfolding(crate::specs::MemberParts::plain_member, crate::specs::MemberParts::attribute, rbs_grammar::specs::Members::method, rbs_grammar::specs::Members::mixin, rbs_grammar::specs::Members::alias, rbs_grammar::specs::Members::visible))]
    pub fn plain_member(&self, cursor: &mut Cursor<'_>) -> Result<Member, Refusal>
        ensures { ReadsIn self.now.marked self.now.functions parts.plain_member cursor.old result cursor.new }
    {
        if cursor.sees(Set::One(Kind::Def)) {
            let method = self.method(cursor)?;
            return Ok(method.member(None));
        }
        if cursor.sees(Set::Attribute) {
            let attribute = self.attribute(cursor)?;
            return Ok(attribute.member(None));
        }
        if cursor.sees(Set::Mixin) {
            return self.mixin(cursor);
        }
        if cursor.sees(Set::One(Kind::Alias)) {
            return self.alias(cursor);
        }
        if cursor.sees(Set::Visibility) {
            return self.visible(cursor);
        }
        self.variable(cursor)
    }

    fn method_types(&self, cursor: &mut Cursor<'_>) -> Result<Seq<MethodType>, Refusal>
        ensures { ReadsIn self.now.marked self.now.functions parts.method_types cursor.old result cursor.new }
    {
        let mut all = Seq::new(self.alloc);
        let first = self.method_type(cursor)?;
        all.push(first)?;
        'items: while cursor.eat(Set::One(Kind::Bar)) {
            let next = self.method_type(cursor)?;
            all.push(next)?;
        }
        Ok(all)
    }

    #[tactic(auto, unfolding(crate::specs::MemberParts::interface_method))]
    fn interface_method(&self, cursor: &mut Cursor<'_>) -> Result<Member, Refusal>
        ensures { ReadsIn self.now.marked self.now.functions parts.interface_method cursor.old result cursor.new }
    {
        cursor.expect(Set::One(Kind::Def))?;
        let name = cursor.expect(Set::Name)?;
        cursor.expect(Set::One(Kind::Colon))?;
        let methods = self.method_types(cursor)?;
        Ok(plain_method(self.alloc, name, methods)?)
    }

    #[tactic(auto, unfolding(crate::specs::MemberParts::interface_reference))]
    fn interface_reference(&self, cursor: &mut Cursor<'_>) -> Result<Ref, Refusal>
        ensures { ReadsIn self.now.marked self.now.functions parts.interface_reference cursor.old result cursor.new }
    {
        let name = self.interface_name(cursor)?;
        let args = self.some_type_args(cursor)?;
        Ok(Ref { name, args })
    }

    #[tactic(auto, unfolding(crate::specs::MemberParts::interface_mixin))]
    fn interface_mixin(&self, cursor: &mut Cursor<'_>) -> Result<Member, Refusal>
        ensures { ReadsIn self.now.marked self.now.functions parts.interface_mixin cursor.old result cursor.new }
    {
        cursor.expect(Set::One(Kind::Include))?;
        let reference = self.interface_reference(cursor)?;
        Ok(Member::Include(reference))
    }

    #[tactic(auto, unfolding(crate::specs::MemberParts::interface_alias))]
    fn interface_alias(&self, cursor: &mut Cursor<'_>) -> Result<Member, Refusal>
        ensures { ReadsIn self.now.marked self.now.functions parts.interface_alias cursor.old result cursor.new }
    {
        cursor.expect(Set::One(Kind::Alias))?;
        let new = cursor.expect(Set::Name)?;
        let old = cursor.expect(Set::Name)?;
        Ok(alias_of(self.alloc, Side::Instance, new, old)?)
    }

    #[tactic(auto, unfolding(rbs_grammar::specs::Members::interface_member, crate::specs::MemberParts::interface_method, crate::specs::MemberParts::interface_mixin, crate::specs::MemberParts::interface_reference, crate::specs::MemberParts::interface_alias, crate::specs::MemberParts::method_types, crate::specs::MemberParts::some_type_args))]
    pub fn interface_member(&self, cursor: &mut Cursor<'_>) -> Result<Member, Refusal>
        ensures { ReadsIn self.now.marked self.now.functions spec.interface_member cursor.old result cursor.new }
    {
        if cursor.sees(Set::One(Kind::Def)) {
            self.interface_method(cursor)
        } else if cursor.sees(Set::One(Kind::Include)) {
            self.interface_mixin(cursor)
        } else {
            self.interface_alias(cursor)
        }
    }
}

/// The next token, which has to be in the set and to stand on the line of the token before it.
#[tactic(auto, using(crate::proofs::OnLine::on_line_read, crate::proofs::OnLine::not_read))]
fn expect_on_line<'a>(cursor: &mut Cursor<'a>, set: Set) -> Result<&'a Token<'a>, Refusal>
    ensures { Reads (λ t. t.now) (read_token (on_the_line (tokens_of set)) same cursor.old) result cursor.new }
{
    if !cursor.sees_on_line(set) {
        return Err(Refusal::Syntax);
    }
    cursor.expect(set)
}

/// Whether a method or an attribute begins at the next token, on the line of the token before it.
#[tactic(auto, unfolding(crate::specs::MemberParts::shown, crate::specs::MemberParts::shown_attribute, rbs_grammar::specs::Members::shown_method))]
fn begins_shown(cursor: &Cursor<'_>) -> bool
    ensures { result ≡ begins (first parts.shown) cursor.now }
{
    match cursor.rest() {
        [] => false,
        [next, ..] => !next.begins_line() && begins_visible(next.kind()),
    }
}

#[tactic(auto, unfolding(crate::specs::MemberParts::shown, crate::specs::MemberParts::shown_attribute, rbs_grammar::specs::Members::shown_method))]
fn begins_visible(kind: Kind) -> bool
    ensures { result ≡ first parts.shown kind false }
{
    match kind {
        Kind::Def | Kind::AttrReader | Kind::AttrWriter | Kind::AttrAccessor => true,
        _ => false,
    }
}

/// Whether a method type begins at the next token.
#[tactic(auto, unfolding(rbs_grammar::specs::Functions::method_type, rbs_grammar::specs::Functions::variables, rbs_grammar::specs::Types::a_function))]
fn begins_overload(cursor: &Cursor<'_>) -> bool
    ensures { result ≡ begins (first (map_value spec.an_overload functions.method_type)) cursor.now }
{
    match cursor.kind() {
        Some(
            Kind::LeftBracket | Kind::LeftParen | Kind::Question | Kind::LeftBrace | Kind::Arrow,
        ) => true,
        _ => false,
    }
}

/// Whether a list of overloads goes on at the next token.
fn goes_on(cursor: &Cursor<'_>, stage: Stage) -> bool
    ensures { result ≡ begins (spec.overloads_lead stage) cursor.now }
{
    match stage {
        Stage::Open => cursor.sees(Set::One(Kind::Bar)),
        _ => false,
    }
}

fn push_overload(alloc: Global, found: &mut Overloads, item: Option<MethodType>) -> Mem<()>
    ensures { OnOk result (found.new ≡ parts.one_overload found.old item) }
{
    match item {
        None => {
            found.more = true;
            Ok(())
        }
        Some(method) => push(alloc, &mut found.methods, method),
    }
}

fn in_brackets(name: Option<Text>) -> AttrVar
    ensures { result ≡ spec.attribute_variable (Some name) }
{
    match name {
        None => AttrVar::Absent,
        Some(name) => AttrVar::Named(name),
    }
}

fn attribute_of(
    alloc: Global,
    word: &Token<'_>,
    name: (Side, &Token<'_>),
    end: (AttrVar, Ty),
) -> Mem<Visible>
    ensures { IfOk result (λ v. parts.visible v ≡ spec.attribute_of word.now ((name.entry.0, name.entry.1.now), end)) }
{
    let (side, name) = name;
    let (variable, ty) = end;
    Ok(Visible::Attribute {
        name: method_name_value(alloc, name.text())?,
        at: name.at(),
        side,
        reads: reads(word.kind()),
        writes: writes(word.kind()),
        variable,
        ty,
    })
}

fn reads(word: Kind) -> bool
    ensures { result ≡ spec.reads word }
{
    match word {
        Kind::AttrWriter => false,
        _ => true,
    }
}

fn writes(word: Kind) -> bool
    ensures { result ≡ spec.writes word }
{
    match word {
        Kind::AttrReader => false,
        _ => true,
    }
}

fn is_public(word: Kind) -> bool
    ensures { result ≡ spec.is_public word }
{
    match word {
        Kind::Public => true,
        _ => false,
    }
}

fn visibility_member(word: Kind) -> Member
    ensures { result ≡ spec.visibility_member word }
{
    match word {
        Kind::Public => Member::Public,
        _ => Member::Private,
    }
}

fn visible_of(word: &Token<'_>, member: Option<Visible>) -> Member
    ensures { result ≡ spec.visible_of word.now (option_map parts.visible member) }
{
    match member {
        None => visibility_member(word.kind()),
        Some(member) => member.member(Some(is_public(word.kind()))),
    }
}

fn plain_method(alloc: Global, name: &Token<'_>, methods: Seq<MethodType>) -> Mem<Member>
    ensures { IfOk result (λ member. member ≡ spec.plain_method name.now methods) }
{
    Ok(Member::Def {
        name: method_name_value(alloc, name.text())?,
        at: name.at(),
        side: Side::Instance,
        public: None,
        overloads: methods,
        more: false,
    })
}

fn method_of(alloc: Global, side: Side, name: &Token<'_>, overloads: Overloads) -> Mem<Visible>
    ensures { IfOk result (λ v. parts.visible v ≡ spec.visible_method (side, name.now) overloads) }
{
    Ok(Visible::Method {
        name: method_name_value(alloc, name.text())?,
        at: name.at(),
        side,
        overloads,
    })
}

fn alias_of(alloc: Global, side: Side, new: &Token<'_>, old: &Token<'_>) -> Mem<Member>
    ensures { IfOk result (λ member. member ≡ spec.alias_of side new.now old.now) }
{
    Ok(Member::AliasOf {
        new_name: method_name_value(alloc, new.text())?,
        at: new.at(),
        old_name: method_name_value(alloc, old.text())?,
        side,
    })
}

fn variable_of(alloc: Global, scope: VarScope, name: &Token<'_>, ty: Ty) -> Mem<Member>
    ensures { IfOk result (λ member. member ≡ spec.variable_of scope name.now ty) }
{
    Ok(Member::Variable {
        name: text_of(alloc, name)?,
        at: name.at(),
        scope,
        ty,
    })
}

fn mixin_of(word: &Token<'_>, reference: Ref) -> Member
    ensures { result ≡ spec.mixin_of word.now reference }
{
    match word.kind() {
        Kind::Include => Member::Include(reference),
        Kind::Extend => Member::Extend(reference),
        _ => Member::Prepend(reference),
    }
}
