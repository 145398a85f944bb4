//! The words in which the grammar is written. What takes memory gives a draft, so that the parts of a rule are put together in one
//! term, and memory is asked for once.

ghost use Rattle.std.specs.Prelude.{◌≡◌, ◌∷◌, [], map, IfOk};
ghost use Rattle.ruby_grammar.specs.declared.part.Part.{Part};
ghost use Rattle.ruby_grammar.specs.declared.part.Part.TheVariants as part;
ghost use Rattle.ruby_grammar.specs.declared.set.Blank.TheVariants as blank;
ghost use Rattle.ruby_grammar.specs.Sets.{table_of, tokens_of};
ghost use Rattle.ruby_exprs.specs.Words as spec;
ghost use Rattle.ruby_exprs.specs.Kinds.{kind_number, keyword_number, sign_number};
ghost use Rattle.ruby_exprs.specs.Labels.{label_number};
ghost use Rattle.ruby_exprs.specs.Drafts.{Makes};

use crate::kinds::{keyword_number, kind_number, sign_number};
use crate::labels::Label;
use crate::names::{Name, rule_number};
use ruby_grammar::{Blank, Part, make};
use ruby_lexer::{Keyword, RubyKind, Sign};
use src_text::{Mem, Seq};
use std::alloc::Global;

/// A part of the grammar, or no memory for it.
#[derive(Drop)]
pub struct Draft {
    pub part: Mem<Part>,
    pub alloc: Global,
}

// ---- numbers

fn kind_numbers(alloc: Global, kinds: &[RubyKind]) -> Mem<Seq<u8>>
    ensures { IfOk result (λ numbers. numbers ≡ map kind_number kinds.now) }
{
    let mut numbers = Seq::new(alloc);
    for kind in kinds {
        numbers.push(kind_number(*kind))?;
    }
    Ok(numbers)
}

fn keyword_numbers(alloc: Global, keywords: &[Keyword]) -> Mem<Seq<u8>>
    ensures { IfOk result (λ numbers. numbers ≡ map keyword_number keywords.now) }
{
    let mut numbers = Seq::new(alloc);
    for keyword in keywords {
        numbers.push(keyword_number(*keyword))?;
    }
    Ok(numbers)
}

fn sign_numbers(alloc: Global, signs: &[Sign]) -> Mem<Seq<u8>>
    ensures { IfOk result (λ numbers. numbers ≡ map sign_number signs.now) }
{
    let mut numbers = Seq::new(alloc);
    for sign in signs {
        numbers.push(sign_number(*sign))?;
    }
    Ok(numbers)
}

fn label_numbers(alloc: Global, labels: &[Label]) -> Mem<Seq<u8>>
    ensures { IfOk result (λ numbers. numbers ≡ map label_number labels.now) }
{
    let mut numbers = Seq::new(alloc);
    for label in labels {
        numbers.push(label.number())?;
    }
    Ok(numbers)
}

// ---- parts, where there was memory for what they are made of

fn of_kinds(alloc: Global, kinds: &[RubyKind]) -> Mem<Part>
    ensures { IfOk result (λ p. p ≡ part.Token (tokens_of (map kind_number kinds.now) blank.Any)) }
{
    let numbers = kind_numbers(alloc, kinds)?;
    make::token(alloc, numbers.as_slice(), Blank::Any)
}

fn of_keywords(alloc: Global, keywords: &[Keyword]) -> Mem<Part>
    ensures { IfOk result (λ p. p ≡ part.Token (tokens_of (map keyword_number keywords.now) blank.Any)) }
{
    let numbers = keyword_numbers(alloc, keywords)?;
    make::token(alloc, numbers.as_slice(), Blank::Any)
}

fn of_signs(alloc: Global, signs: &[Sign]) -> Mem<Part>
    ensures { IfOk result (λ p. p ≡ part.Token (tokens_of (map sign_number signs.now) blank.Any)) }
{
    let numbers = sign_numbers(alloc, signs)?;
    make::token(alloc, numbers.as_slice(), Blank::Any)
}

#[tactic(auto, unfolding(crate::specs::Words::blank_and_none_of))]
fn of_other_kinds(alloc: Global, kinds: &[RubyKind]) -> Mem<Part>
    ensures { IfOk result (λ p. p ≡ spec.blank_and_none_of kinds.now) }
{
    let numbers = kind_numbers(alloc, kinds)?;
    make::token_but(alloc, numbers.as_slice(), Blank::With)
}

fn with_both(alloc: Global, first: Mem<Part>, second: Mem<Part>) -> Mem<Part>
    ensures { (p q : Part) → IfOk first (λ x. x ≡ p) → IfOk second (λ x. x ≡ q) → IfOk result (λ x. x ≡ part.Both p q) }
{
    make::both(alloc, first?, second?)
}

fn with_either(alloc: Global, first: Mem<Part>, second: Mem<Part>) -> Mem<Part>
    ensures { (p q : Part) → IfOk first (λ x. x ≡ p) → IfOk second (λ x. x ≡ q) → IfOk result (λ x. x ≡ part.Either p q) }
{
    make::either(alloc, first?, second?)
}

fn with_perhaps(alloc: Global, inner: Mem<Part>) -> Mem<Part>
    ensures { (p : Part) → IfOk inner (λ x. x ≡ p) → IfOk result (λ x. x ≡ part.Either p part.Empty) }
{
    make::perhaps(alloc, inner?)
}

fn with_many(alloc: Global, inner: Mem<Part>) -> Mem<Part>
    ensures { (p : Part) → IfOk inner (λ x. x ≡ p) → IfOk result (λ x. x ≡ part.Many p) }
{
    make::many(alloc, inner?)
}

fn with_not(alloc: Global, inner: Mem<Part>) -> Mem<Part>
    ensures { (p : Part) → IfOk inner (λ x. x ≡ p) → IfOk result (λ x. x ≡ part.Not p) }
{
    make::not(alloc, inner?)
}

fn with_label(alloc: Global, name: u8, inner: Mem<Part>) -> Mem<Part>
    ensures { (p : Part) → IfOk inner (λ x. x ≡ p) → IfOk result (λ x. x ≡ part.Label name p) }
{
    make::label(alloc, name, inner?)
}

fn with_chained(alloc: Global, name: u8, inner: Mem<Part>) -> Mem<Part>
    ensures { (p : Part) → IfOk inner (λ x. x ≡ p) → IfOk result (λ x. x ≡ part.Chained name p) }
{
    make::chained(alloc, name, inner?)
}

fn with_ended(alloc: Global, labels: &[Label], inner: Mem<Part>) -> Mem<Part>
    ensures { (p : Part) → IfOk inner (λ x. x ≡ p) → IfOk result (λ x. x ≡ part.Ended (table_of (map label_number labels.now)) p) }
{
    let numbers = label_numbers(alloc, labels)?;
    make::ended(alloc, numbers.as_slice(), inner?)
}

fn with_heads(alloc: Global, heads: &[u8], link: Mem<Part>) -> Mem<Part>
    ensures { (p : Part) → IfOk link (λ x. x ≡ p) → IfOk result (λ x. x ≡ part.Chain (tokens_of heads.now blank.Any) p) }
{
    make::chain(alloc, heads, link?)
}

fn with_kinds(alloc: Global, heads: &[RubyKind], link: Mem<Part>) -> Mem<Part>
    ensures { (p : Part) → IfOk link (λ x. x ≡ p) → IfOk result (λ x. x ≡ part.Chain (tokens_of (map kind_number heads.now) blank.Any) p) }
{
    let numbers = kind_numbers(alloc, heads)?;
    with_heads(alloc, numbers.as_slice(), link)
}

fn with_signs(alloc: Global, heads: &[Sign], link: Mem<Part>) -> Mem<Part>
    ensures { (p : Part) → IfOk link (λ x. x ≡ p) → IfOk result (λ x. x ≡ part.Chain (tokens_of (map sign_number heads.now) blank.Any) p) }
{
    let numbers = sign_numbers(alloc, heads)?;
    with_heads(alloc, numbers.as_slice(), link)
}

// ---- tokens

/// A token of one of these kinds.
#[tactic(auto, unfolding(crate::specs::Drafts::Makes, crate::specs::Words::kinds))]
pub fn kinds(alloc: Global, kinds: &[RubyKind]) -> Draft
    ensures { Makes result (spec.kinds kinds.now) }
{
    Draft {
        part: of_kinds(alloc, kinds),
        alloc,
    }
}

/// One of these keywords.
#[tactic(auto, unfolding(crate::specs::Drafts::Makes, crate::specs::Words::words))]
pub fn words(alloc: Global, words: &[Keyword]) -> Draft
    ensures { Makes result (spec.words words.now) }
{
    Draft {
        part: of_keywords(alloc, words),
        alloc,
    }
}

/// One of these signs, of those with two forms that between two values.
#[tactic(auto, unfolding(crate::specs::Drafts::Makes, crate::specs::Words::signs))]
pub fn signs(alloc: Global, signs: &[Sign]) -> Draft
    ensures { Makes result (spec.signs signs.now) }
{
    Draft {
        part: of_signs(alloc, signs),
        alloc,
    }
}

/// A token of this kind.
#[tactic(auto, unfolding(crate::specs::Words::kind))]
pub fn kind(alloc: Global, kind: RubyKind) -> Draft
    ensures { Makes result (spec.kind kind) }
{
    kinds(alloc, &[kind])
}

/// This keyword.
#[tactic(auto, unfolding(crate::specs::Words::word))]
pub fn word(alloc: Global, word: Keyword) -> Draft
    ensures { Makes result (spec.word word) }
{
    words(alloc, &[word])
}

/// This sign, of two forms that between two values.
#[tactic(auto, unfolding(crate::specs::Words::sign))]
pub fn sign(alloc: Global, sign: Sign) -> Draft
    ensures { Makes result (spec.sign sign) }
{
    signs(alloc, &[sign])
}

/// The form of a sign that stands before a value.
#[tactic(auto, unfolding(crate::specs::Words::prefix))]
pub fn prefix(alloc: Global, sign: Sign) -> Draft
    ensures { Makes result (spec.prefix sign) }
{
    kinds(alloc, &[RubyKind::Prefix(sign)])
}

/// This sign without a blank before it.
#[tactic(auto, unfolding(crate::specs::Drafts::Makes, crate::specs::Words::adjacent))]
pub fn adjacent(alloc: Global, sign: Sign) -> Draft
    ensures { Makes result (spec.adjacent sign) }
{
    Draft {
        part: make::token(alloc, &[sign_number(sign)], Blank::Without),
        alloc,
    }
}

/// A token with a blank before it, of none of these kinds.
#[tactic(auto, unfolding(crate::specs::Drafts::Makes))]
pub fn blank_and_none_of(alloc: Global, kinds: &[RubyKind]) -> Draft
    ensures { Makes result (spec.blank_and_none_of kinds.now) }
{
    Draft {
        part: of_other_kinds(alloc, kinds),
        alloc,
    }
}

// ---- rules

/// What a rule derives.
#[tactic(auto, unfolding(crate::specs::Drafts::Makes, crate::specs::Words::call))]
pub fn call(alloc: Global, name: Name) -> Draft
    ensures { Makes result (spec.call name) }
{
    Draft {
        part: Ok(Part::Call(rule_number(name))),
        alloc,
    }
}

/// What a rule derives, which is counted among the rules that are open.
#[tactic(auto, unfolding(crate::specs::Drafts::Makes, crate::specs::Words::opened))]
pub fn opened(alloc: Global, name: Name) -> Draft
    ensures { Makes result (spec.opened name) }
{
    Draft {
        part: Ok(make::opened(rule_number(name))),
        alloc,
    }
}

/// What a rule derives, which is counted among the words that are open.
#[tactic(auto, unfolding(crate::specs::Drafts::Makes, crate::specs::Words::opened_word))]
pub fn opened_word(alloc: Global, name: Name) -> Draft
    ensures { Makes result (spec.opened_word name) }
{
    Draft {
        part: Ok(make::worded(rule_number(name))),
        alloc,
    }
}

// ---- one after the other, one or the other

impl Draft {
    /// One after the other.
    #[tactic(auto, unfolding(crate::specs::Drafts::Makes))]
    pub fn then(self, next: Draft) -> Draft
        ensures { (p q : Part) → Makes self p → Makes next q → Makes result (part.Both p q) }
    {
        Draft {
            part: with_both(self.alloc, self.part, next.part),
            alloc: next.alloc,
        }
    }

    /// The first that derives.
    #[tactic(auto, unfolding(crate::specs::Drafts::Makes))]
    pub fn or(self, other: Draft) -> Draft
        ensures { (p q : Part) → Makes self p → Makes other q → Makes result (part.Either p q) }
    {
        Draft {
            part: with_either(self.alloc, self.part, other.part),
            alloc: other.alloc,
        }
    }

    /// This or no token.
    #[tactic(auto, unfolding(crate::specs::Drafts::Makes, crate::specs::Words::maybe))]
    pub fn maybe(self) -> Draft
        ensures { (p : Part) → Makes self p → Makes result (spec.maybe p) }
    {
        Draft {
            part: with_perhaps(self.alloc, self.part),
            alloc: self.alloc,
        }
    }

    /// As many as derive.
    #[tactic(auto, unfolding(crate::specs::Drafts::Makes, crate::specs::Words::many))]
    pub fn many(self) -> Draft
        ensures { (p : Part) → Makes self p → Makes result (spec.many p) }
    {
        Draft {
            part: with_many(self.alloc, self.part),
            alloc: self.alloc,
        }
    }

    /// No token, where this doesn't derive.
    #[tactic(auto, unfolding(crate::specs::Drafts::Makes, crate::specs::Words::absent))]
    pub fn absent(self) -> Draft
        ensures { (p : Part) → Makes self p → Makes result (spec.absent p) }
    {
        Draft {
            part: with_not(self.alloc, self.part),
            alloc: self.alloc,
        }
    }

    /// No token, where this derives.
    #[tactic(auto, unfolding(crate::specs::Words::absent, crate::specs::Words::ahead))]
    pub fn ahead(self) -> Draft
        ensures { (p : Part) → Makes self p → Makes result (spec.ahead p) }
    {
        self.absent().absent()
    }

    /// A node with this name.
    #[tactic(auto, unfolding(crate::specs::Drafts::Makes, crate::specs::Words::named))]
    pub fn named(self, name: Label) -> Draft
        ensures { (p : Part) → Makes self p → Makes result (spec.named name p) }
    {
        Draft {
            part: with_label(self.alloc, name.number(), self.part),
            alloc: self.alloc,
        }
    }

    /// A node with this name, but where the part gives one tree alone that tree.
    #[tactic(auto, unfolding(crate::specs::Drafts::Makes, crate::specs::Words::chained))]
    pub fn chained(self, name: Label) -> Draft
        ensures { (p : Part) → Makes self p → Makes result (spec.chained name p) }
    {
        Draft {
            part: with_chained(self.alloc, name.number(), self.part),
            alloc: self.alloc,
        }
    }

    /// The part, where the name of a node that ended last in it is one of these.
    #[tactic(auto, unfolding(crate::specs::Drafts::Makes, crate::specs::Words::ended))]
    pub fn ended(self, names: &[Label]) -> Draft
        ensures { (p : Part) → Makes self p → Makes result (spec.ended names.now p) }
    {
        Draft {
            part: with_ended(self.alloc, names, self.part),
            alloc: self.alloc,
        }
    }

    /// The part.
    #[tactic(auto, unfolding(crate::specs::Drafts::Makes))]
    pub fn made(self) -> Mem<Part>
        ensures { (p : Part) → Makes self p → IfOk result (λ x. x ≡ p) }
    {
        self.part
    }
}

/// As many as derive, and at least one. The part is given twice.
#[tactic(auto, unfolding(crate::specs::Words::some, crate::specs::Words::many))]
pub fn some(first: Draft, again: Draft) -> Draft
    ensures { (p : Part) → Makes first p → Makes again p → Makes result (spec.some p) }
{
    first.then(again.many())
}

/// As many as derive, and at least one, with commas between. The part is given twice.
#[tactic(auto, unfolding(crate::specs::Words::listed, crate::specs::Words::many))]
pub fn listed(first: Draft, again: Draft) -> Draft
    ensures { (p : Part) → Makes first p → Makes again p → Makes result (spec.listed p) }
{
    let comma = sign(first.alloc, Sign::Comma);
    first.then(comma.then(again).many())
}

/// As many as derive, and at least two, with commas between. The part is given three times.
#[tactic(auto, unfolding(crate::specs::Words::several, crate::specs::Words::many))]
pub fn several(first: Draft, second: Draft, again: Draft) -> Draft
    ensures { (p : Part) → Makes first p → Makes second p → Makes again p → Makes result (spec.several p) }
{
    let comma = sign(first.alloc, Sign::Comma);
    let other = sign(first.alloc, Sign::Comma);
    first
        .then(comma.then(second))
        .then(other.then(again).many())
}

/// As many links as derive, 128 at most, each of which begins with one of these kinds.
#[tactic(auto, unfolding(crate::specs::Drafts::Makes, crate::specs::Words::chain))]
pub fn chain(alloc: Global, heads: &[RubyKind], link: Draft) -> Draft
    ensures { (p : Part) → Makes link p → Makes result (spec.chain heads.now p) }
{
    Draft {
        part: with_kinds(alloc, heads, link.part),
        alloc,
    }
}

// As many links as derive, 128 at most, each of which begins with one of these signs.
#[tactic(auto, unfolding(crate::specs::Drafts::Makes))]
fn chain_of_signs(alloc: Global, heads: &[Sign], link: Draft) -> Draft
    ensures { (p : Part) → Makes link p → Makes result (part.Chain (tokens_of (map sign_number heads.now) blank.Any) p) }
{
    Draft {
        part: with_signs(alloc, heads, link.part),
        alloc,
    }
}

/// A rule, and as many of these signs with the rule behind them as derive.
#[tactic(auto, unfolding(crate::specs::Words::operators))]
pub fn operators(alloc: Global, name: Label, operand: Name, all: &[Sign]) -> Draft
    ensures { Makes result (spec.operators name operand all.now) }
{
    let link = signs(alloc, all).then(call(alloc, operand));
    call(alloc, operand)
        .then(chain_of_signs(alloc, all, link))
        .chained(name)
}
