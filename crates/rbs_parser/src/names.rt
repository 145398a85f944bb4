ghost use Rattle.std.specs.Prelude.{◌≡◌, ◌∷◌, [], Bool, OnOk};
ghost use Rattle.std.specs.Option.{option_copied};
ghost use Rattle.rbs_lexer.specs.declared.kind.Kind.TheVariants as k;
ghost use Rattle.rbs_grammar.specs.declared.stage.Stage.{Stage};
ghost use Rattle.rbs_grammar.specs.declared.stage.Stage.TheVariants as at;
ghost use Rattle.rbs_grammar.specs.Grammar.{read, read_token, begins, tok, seq};
ghost use Rattle.rbs_grammar.specs.Levels.{full, read_in};
ghost use Rattle.rbs_grammar.specs.Parts.{same};
ghost use Rattle.rbs_grammar.specs.Rules as rules;
ghost use Rattle.rbs_grammar.specs.Names as spec;
ghost use Rattle.rbs_grammar.specs.Types as types;
ghost use Rattle.rbs_parser.specs.Sets.{tokens_of};
ghost use Rattle.rbs_parser.specs.NameWords.{one_more, ends_of, outer_words, outer_part, words_by};
ghost use Rattle.rbs_parser.specs.Reading.{Reads, ReadsPlain};

use crate::lists::push;
use crate::types::text_of;
use crate::{Cursor, Refusal, Set};
use rbs_grammar::{Stage, Words};
use rbs_lexer::{Kind, Token};
use rbs_tree::TypeName;
use src_text::{Mem, Seq, Span};
use std::alloc::Global;

/// What may end a name, beside a constant.
#[derive(Clone, Copy, Debug, PartialEq, Eq)]
enum Ends {
    /// The name of an interface.
    Interface,
    /// The name of an interface or a type alias.
    Type,
    /// The same, but for the words that are types by themselves.
    LoneType,
}

impl Ends {
    fn has(self, kind: Kind) -> bool
        ensures { (line : Bool) → result ≡ ends_of self kind line }
    {
        match self {
            Ends::Interface => is_interface(kind),
            Ends::Type => ends_type(kind),
            Ends::LoneType => ends_lone_type(kind),
        }
    }
}

/// The name of a class or a module.
#[tactic(auto, unfolding(rbs_grammar::specs::Names::class_name))]
pub fn class_name(alloc: Global, cursor: &mut Cursor<'_>) -> Result<TypeName, Refusal>
    ensures { ReadsPlain spec.class_name cursor.old result cursor.new }
{
    let colons = leading(cursor)?;
    let words = constants(alloc, cursor)?;
    Ok(name_of(colons, words))
}

/// The name of an interface.
#[tactic(auto, unfolding(rbs_grammar::specs::Names::interface_name))]
pub fn interface_name(alloc: Global, cursor: &mut Cursor<'_>) -> Result<TypeName, Refusal>
    ensures { ReadsPlain spec.interface_name cursor.old result cursor.new }
{
    let colons = leading(cursor)?;
    let words = words_to(alloc, cursor, Set::One(Kind::InterfaceName))?;
    Ok(name_of(colons, words))
}

/// The name of a type alias.
#[tactic(auto, unfolding(rbs_grammar::specs::Names::alias_name))]
pub fn alias_name(alloc: Global, cursor: &mut Cursor<'_>) -> Result<TypeName, Refusal>
    ensures { ReadsPlain spec.alias_name cursor.old result cursor.new }
{
    let colons = leading(cursor)?;
    let words = words_to(alloc, cursor, Set::Small)?;
    Ok(name_of(colons, words))
}

/// The name of a class, a module or an interface.
#[tactic(auto, unfolding(rbs_grammar::specs::Names::module_name))]
pub fn module_name(alloc: Global, cursor: &mut Cursor<'_>) -> Result<TypeName, Refusal>
    ensures { ReadsPlain spec.module_name cursor.old result cursor.new }
{
    let colons = leading(cursor)?;
    let words = module_words(alloc, cursor)?;
    Ok(name_of(colons, words))
}

/// The words of a type's name behind a leading `::`.
#[tactic(auto, unfolding(rbs_grammar::specs::Types::absolute_words, crate::specs::NameWords::words_by))]
pub fn absolute_words(alloc: Global, cursor: &mut Cursor<'_>) -> Result<Words, Refusal>
    ensures { ReadsPlain types.absolute_words cursor.old result cursor.new }
{
    words(alloc, cursor, Ends::Type, Ends::Type)
}

/// The words of a type's name without a leading `::`.
#[tactic(auto, unfolding(rbs_grammar::specs::Types::relative_words, crate::specs::NameWords::words_by))]
pub fn relative_words(alloc: Global, cursor: &mut Cursor<'_>) -> Result<Words, Refusal>
    ensures { ReadsPlain types.relative_words cursor.old result cursor.new }
{
    words(alloc, cursor, Ends::LoneType, Ends::Type)
}

#[tactic(auto, unfolding(rbs_grammar::specs::Names::module_words, crate::specs::NameWords::words_by))]
fn module_words(alloc: Global, cursor: &mut Cursor<'_>) -> Result<Words, Refusal>
    ensures { ReadsPlain spec.module_words cursor.old result cursor.new }
{
    words(alloc, cursor, Ends::Interface, Ends::Interface)
}

// The `::` that may stand before a name.
fn leading<'a>(cursor: &mut Cursor<'a>) -> Result<Option<&'a Token<'a>>, Refusal>
    ensures { Reads option_copied (read (read_in full) spec.leading cursor.old) result cursor.new }
{
    if cursor.sees(Set::One(Kind::ColonColon)) {
        let colons = cursor.expect(Set::One(Kind::ColonColon))?;
        Ok(Some(colons))
    } else {
        Ok(None)
    }
}

// The name of words, with a leading `::` or without.
fn name_of(colons: Option<&Token<'_>>, words: Words) -> TypeName
    ensures { result ≡ spec.name_of (option_copied colons.entry) words }
{
    match colons {
        None => relative_name(words),
        Some(colons) => absolute_name(colons, words),
    }
}

/// The name of words.
pub fn relative_name(words: Words) -> TypeName
    ensures { result ≡ spec.relative_name words }
{
    TypeName {
        absolute: false,
        path: words.path,
        at: words.at,
    }
}

/// The name of words behind a leading `::`.
pub fn absolute_name(colons: &Token<'_>, words: Words) -> TypeName
    ensures { result ≡ spec.absolute_name colons.now words }
{
    TypeName {
        absolute: true,
        path: words.path,
        at: Span {
            start: colons.at().start,
            end: words.at.end,
        },
    }
}

// ---- words, one by one

fn no_words(alloc: Global) -> Words
    ensures { result ≡ spec.words_of [] }
{
    Words {
        path: Seq::new(alloc),
        at: Span { start: 0, end: 0 },
        last: Kind::Word,
    }
}

fn push_word(alloc: Global, words: &mut Words, word: &Token<'_>) -> Mem<()>
    ensures { OnOk result (words.new ≡ one_more words.old word.now) }
{
    let text = text_of(alloc, word)?;
    if words.path.is_empty() {
        words.at.start = word.at().start;
    }
    words.at.end = word.at().end;
    words.last = word.kind();
    push(alloc, &mut words.path, text)
}

// Constants with `::` between them.
fn constants(alloc: Global, cursor: &mut Cursor<'_>) -> Result<Words, Refusal>
    ensures { ReadsPlain spec.constants cursor.old result cursor.new }
{
    let first = constant(cursor)?;
    let mut words = no_words(alloc);
    push_word(alloc, &mut words, first)?;
    'items: while cursor.sees(Set::One(Kind::ColonColon)) {
        let next = constant_part(cursor)?;
        push_word(alloc, &mut words, next)?;
    }
    Ok(words)
}

#[tactic(auto, using(crate::proofs::Tokens::token_by))]
fn constant<'a>(cursor: &mut Cursor<'a>) -> Result<&'a Token<'a>, Refusal>
    ensures { Reads (λ word. (word.now, at.Open)) (read_token (rules.is k.Constant) (spec.and_stage at.Open) cursor.old) result cursor.new }
{
    cursor.expect(Set::One(Kind::Constant))
}

fn constant_part<'a>(cursor: &mut Cursor<'a>) -> Result<&'a Token<'a>, Refusal>
    ensures { Reads (λ word. (word.now, at.Open)) (read (read_in full) (spec.constant_part at.Open) cursor.old) result cursor.new }
{
    cursor.expect(Set::One(Kind::ColonColon))?;
    constant(cursor)
}

// Constants with `::` behind each, and then a word of the set.
fn words_to(alloc: Global, cursor: &mut Cursor<'_>, last: Set) -> Result<Words, Refusal>
    ensures { ReadsPlain (seq spec.words_to spec.outer_names (tok (tokens_of last) k.Word same)) cursor.old result cursor.new }
{
    let mut words = outer_words(alloc, cursor)?;
    let word = cursor.expect(last)?;
    push_word(alloc, &mut words, word)?;
    Ok(words)
}

fn outer_words(alloc: Global, cursor: &mut Cursor<'_>) -> Result<Words, Refusal>
    ensures { ReadsPlain outer_words cursor.old result cursor.new }
{
    let mut words = no_words(alloc);
    'items: while cursor.sees(Set::One(Kind::Constant)) {
        let next = outer_part(cursor)?;
        push_word(alloc, &mut words, next)?;
    }
    Ok(words)
}

fn outer_part<'a>(cursor: &mut Cursor<'a>) -> Result<&'a Token<'a>, Refusal>
    ensures { Reads (λ word. word.now) (read (read_in full) outer_part cursor.old) result cursor.new }
{
    let word = cursor.expect(Set::One(Kind::Constant))?;
    cursor.expect(Set::One(Kind::ColonColon))?;
    Ok(word)
}

// Words with `::` between them, all but the last of them constants.
fn words(alloc: Global, cursor: &mut Cursor<'_>, lone: Ends, ends: Ends) -> Result<Words, Refusal>
    ensures { ReadsPlain (words_by lone ends) cursor.old result cursor.new }
{
    let (first, mut stage) = last_word(cursor, lone)?;
    let mut words = no_words(alloc);
    push_word(alloc, &mut words, first)?;
    'items: while goes_on(cursor, stage) {
        let (next, after) = name_part(cursor, ends)?;
        push_word(alloc, &mut words, next)?;
        stage = after;
    }
    Ok(words)
}

// Whether a name goes on at the next token.
fn goes_on(cursor: &Cursor<'_>, stage: Stage) -> bool
    ensures { result ≡ begins (spec.name_leads stage) cursor.now }
{
    match stage {
        Stage::Open => cursor.sees(Set::One(Kind::ColonColon)),
        _ => false,
    }
}

fn name_part<'a>(cursor: &mut Cursor<'a>, ends: Ends) -> Result<(&'a Token<'a>, Stage), Refusal>
    ensures { (stage : Stage) → Reads (λ part. (part.0.now, part.1)) (read (read_in full) (spec.name_part (ends_of ends) stage) cursor.old) result cursor.new }
{
    cursor.expect(Set::One(Kind::ColonColon))?;
    last_word(cursor, ends)
}

// A constant, behind which a name may go on, or a word that ends one.
fn last_word<'a>(cursor: &mut Cursor<'a>, ends: Ends) -> Result<(&'a Token<'a>, Stage), Refusal>
    ensures { Reads (λ part. (part.0.now, part.1)) (read (read_in full) (spec.last_word (ends_of ends)) cursor.old) result cursor.new }
{
    if cursor.sees(Set::One(Kind::Constant)) {
        let word = constant(cursor)?;
        Ok((word, Stage::Open))
    } else {
        let word = end_word(cursor, ends)?;
        Ok((word, Stage::Done))
    }
}

#[tactic(auto, using(crate::proofs::Tokens::token_by))]
fn end_word<'a>(cursor: &mut Cursor<'a>, ends: Ends) -> Result<&'a Token<'a>, Refusal>
    ensures { Reads (λ word. (word.now, at.Done)) (read_token (ends_of ends) (spec.and_stage at.Done) cursor.old) result cursor.new }
{
    match cursor.kind() {
        Some(kind) if ends.has(kind) => cursor.expect(Set::One(kind)),
        _ => Err(Refusal::Syntax),
    }
}

fn is_interface(kind: Kind) -> bool
    ensures { (line : Bool) → result ≡ rules.is k.InterfaceName kind line }
{
    match kind {
        Kind::InterfaceName => true,
        _ => false,
    }
}

fn ends_type(kind: Kind) -> bool
    ensures { (line : Bool) → result ≡ spec.ends_type kind line }
{
    match kind {
        Kind::InterfaceName
        | Kind::Word
        | Kind::Alias
        | Kind::As
        | Kind::AttrAccessor
        | Kind::AttrReader
        | Kind::AttrWriter
        | Kind::Bool
        | Kind::Bot
        | Kind::Class
        | Kind::Def
        | Kind::End
        | Kind::Extend
        | Kind::False
        | Kind::In
        | Kind::Include
        | Kind::Instance
        | Kind::Interface
        | Kind::Module
        | Kind::Nil
        | Kind::Out
        | Kind::Prepend
        | Kind::Private
        | Kind::Public
        | Kind::SelfWord
        | Kind::Singleton
        | Kind::Top
        | Kind::True
        | Kind::Type
        | Kind::Unchecked
        | Kind::Untyped
        | Kind::Use
        | Kind::Void => true,
        _ => false,
    }
}

fn ends_lone_type(kind: Kind) -> bool
    ensures { (line : Bool) → result ≡ types.ends_lone_type kind line }
{
    match kind {
        Kind::InterfaceName
        | Kind::Word
        | Kind::Alias
        | Kind::As
        | Kind::AttrAccessor
        | Kind::AttrReader
        | Kind::AttrWriter
        | Kind::Def
        | Kind::End
        | Kind::Extend
        | Kind::In
        | Kind::Include
        | Kind::Interface
        | Kind::Module
        | Kind::Out
        | Kind::Prepend
        | Kind::Private
        | Kind::Public
        | Kind::Type
        | Kind::Unchecked
        | Kind::Use => true,
        _ => false,
    }
}
