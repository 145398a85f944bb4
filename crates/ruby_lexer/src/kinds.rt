ghost use Rattle.std.specs.Prelude.{◌≡◌};
ghost use Rattle.ruby_lexer.specs.Kinds as spec;
ghost use Rattle.ruby_lexer.specs.Kinds.{is_so};

use crate::kind::{Keyword, RubyKind, Sign};
use crate::state::Alias;

fn closes(sign: Sign) -> bool
    ensures { result ≡ spec.closes sign }
{
    match sign {
        Sign::RightParen | Sign::RightBracket | Sign::RightBrace => true,
        _ => false,
    }
}

fn is_value_word(word: Keyword) -> bool
    ensures { result ≡ spec.is_value_word word }
{
    match word {
        Keyword::End | Keyword::SelfWord | Keyword::Nil | Keyword::True | Keyword::False => true,
        _ => false,
    }
}

/// Whether a value ends with a token of this kind.
#[tactic(auto, unfolding(crate::specs::Kinds::ends_value))]
fn kind_ends_value(kind: RubyKind) -> bool
    ensures { result ≡ spec.ends_value kind }
{
    match kind {
        RubyKind::Identifier
        | RubyKind::Constant
        | RubyKind::NamedWord
        | RubyKind::NamedConstant
        | RubyKind::NamedSelf
        | RubyKind::InstanceVariable
        | RubyKind::ClassVariable
        | RubyKind::GlobalVariable
        | RubyKind::Integer
        | RubyKind::Symbol
        | RubyKind::StringClose
        | RubyKind::SymbolClose
        | RubyKind::RegexpClose
        | RubyKind::HeredocClose
        | RubyKind::WordsClose => true,
        RubyKind::Keyword(word) => is_value_word(word),
        RubyKind::Sign(sign) => closes(sign),
        _ => false,
    }
}

/// Whether a value ends with the token before.
pub fn ends_value(last: Option<RubyKind>) -> bool
    ensures { result ≡ is_so spec.ends_value last }
{
    match last {
        Some(kind) => kind_ends_value(kind),
        None => false,
    }
}

/// Whether the token before is an identifier.
pub fn is_identifier(last: Option<RubyKind>) -> bool
    ensures { result ≡ is_so spec.is_identifier last }
{
    match last {
        Some(RubyKind::Identifier | RubyKind::NamedWord | RubyKind::NamedSelf) => true,
        _ => false,
    }
}

fn keeps_line(sign: Sign) -> bool
    ensures { result ≡ spec.keeps_line sign }
{
    match sign {
        Sign::RightParen
        | Sign::RightBracket
        | Sign::RightBrace
        | Sign::Colon
        | Sign::Semicolon
        | Sign::Arrow
        | Sign::Bang
        | Sign::Tilde => true,
        _ => false,
    }
}

fn opens_list(sign: Sign) -> bool
    ensures { result ≡ spec.opens_list sign }
{
    match sign {
        Sign::LeftBracket | Sign::LeftBrace => true,
        _ => false,
    }
}

/// Whether a line's end behind the token before is no token.
pub fn drops_line_end(last: Option<RubyKind>) -> bool
    ensures { result ≡ is_so spec.drops_line_end last }
{
    match last {
        Some(RubyKind::Assigning) => true,
        Some(RubyKind::Sign(sign)) => !keeps_line(sign),
        Some(RubyKind::Prefix(sign)) => opens_list(sign),
        _ => false,
    }
}

fn links(sign: Sign) -> bool
    ensures { result ≡ spec.links sign }
{
    match sign {
        Sign::Dot | Sign::SafeDot | Sign::ColonColon => true,
        _ => false,
    }
}

fn defines(word: Keyword) -> bool
    ensures { result ≡ spec.defines word }
{
    match word {
        Keyword::Def | Keyword::Alias => true,
        _ => false,
    }
}

/// Whether a name stands behind the token before.
pub fn precedes_name(last: Option<RubyKind>) -> bool
    ensures { result ≡ is_so spec.precedes_name last }
{
    match last {
        Some(RubyKind::Sign(sign)) => links(sign),
        Some(RubyKind::Keyword(word)) => defines(word),
        _ => false,
    }
}

fn is_name_or_symbol(kind: RubyKind) -> bool
    ensures { result ≡ spec.is_name_or_symbol kind }
{
    match kind {
        RubyKind::Symbol
        | RubyKind::NamedWord
        | RubyKind::NamedConstant
        | RubyKind::NamedSelf
        | RubyKind::NamedOperator => true,
        _ => false,
    }
}

fn is_alias_word(kind: RubyKind) -> bool
    ensures { result ≡ spec.is_alias_word kind }
{
    match kind {
        RubyKind::Keyword(Keyword::Alias) => true,
        _ => false,
    }
}

/// Whether the token before is `class`.
pub fn is_class_word(last: Option<RubyKind>) -> bool
    ensures { result ≡ is_so spec.is_class_word last }
{
    match last {
        Some(RubyKind::Keyword(Keyword::Class)) => true,
        _ => false,
    }
}

/// Whether the token before is `...`.
pub fn is_dots(last: Option<RubyKind>) -> bool
    ensures { result ≡ is_so spec.is_dots last }
{
    match last {
        Some(RubyKind::Sign(Sign::DotDotDot)) => true,
        _ => false,
    }
}

/// Whether the token before is the end of the text.
pub fn is_end(last: Option<RubyKind>) -> bool
    ensures { result ≡ is_so spec.is_end last }
{
    match last {
        Some(RubyKind::End) => true,
        _ => false,
    }
}

/// Whether the token is `(` or `,`.
pub fn precedes_parameter(kind: Option<RubyKind>) -> bool
    ensures { result ≡ is_so spec.precedes_parameter kind }
{
    match kind {
        Some(RubyKind::Sign(Sign::LeftParen | Sign::Comma)) => true,
        _ => false,
    }
}

/// Which name of an alias comes behind a token, by which it was before it.
pub fn alias_behind(before: Alias, kind: RubyKind) -> Alias
    ensures { result ≡ spec.alias_behind before kind }
{
    if is_alias_word(kind) {
        Alias::First
    } else if is_first(before) && is_name_or_symbol(kind) {
        Alias::Second
    } else {
        Alias::Neither
    }
}

/// Whether an alias's first name comes next.
pub fn is_first(alias: Alias) -> bool
    ensures { result ≡ spec.is_first alias }
{
    match alias {
        Alias::First => true,
        _ => false,
    }
}

/// Whether an alias's second name comes next.
pub fn is_second(alias: Alias) -> bool
    ensures { result ≡ spec.is_second alias }
{
    match alias {
        Alias::Second => true,
        _ => false,
    }
}
