//! The numbers of the kinds of tokens.

ghost use Rattle.std.specs.Prelude.{◌≡◌};
ghost use Rattle.ruby_exprs.specs.Kinds as spec;

use ruby_lexer::{Keyword, RubyKind, Sign};

// The number of a sign of two forms, where it stands before a value; other signs have one form.
fn prefix_number(sign: Sign) -> u8
    ensures { result ≡ spec.prefix_number sign }
{
    match sign {
        Sign::Minus => 104,
        Sign::Plus => 105,
        Sign::Star => 106,
        Sign::StarStar => 107,
        Sign::Ampersand => 108,
        Sign::LeftBracket => 109,
        Sign::ColonColon => 110,
        Sign::LessLess => 111,
        Sign::LeftBrace => 112,
        _ => 127,
    }
}

/// The number of a keyword.
pub fn keyword_number(keyword: Keyword) -> u8
    ensures { result ≡ spec.keyword_number keyword }
{
    match keyword {
        Keyword::Alias => 29,
        Keyword::And => 30,
        Keyword::Begin => 31,
        Keyword::Break => 32,
        Keyword::Case => 33,
        Keyword::Class => 34,
        Keyword::Def => 35,
        Keyword::Defined => 36,
        Keyword::Do => 37,
        Keyword::Else => 38,
        Keyword::Elsif => 39,
        Keyword::End => 40,
        Keyword::Ensure => 41,
        Keyword::False => 42,
        Keyword::If => 43,
        Keyword::Module => 44,
        Keyword::Next => 45,
        Keyword::Nil => 46,
        Keyword::Not => 47,
        Keyword::Or => 48,
        Keyword::Rescue => 49,
        Keyword::Return => 50,
        Keyword::SelfWord => 51,
        Keyword::Super => 52,
        Keyword::Then => 53,
        Keyword::True => 54,
        Keyword::Unless => 55,
        Keyword::Until => 56,
        Keyword::When => 57,
        Keyword::While => 58,
        Keyword::Yield => 59,
        Keyword::File => 60,
    }
}

/// The number of a sign.
pub fn sign_number(sign: Sign) -> u8
    ensures { result ≡ spec.sign_number sign }
{
    match sign {
        Sign::LeftParen => 61,
        Sign::RightParen => 62,
        Sign::LeftBracket => 63,
        Sign::RightBracket => 64,
        Sign::LeftBrace => 65,
        Sign::RightBrace => 66,
        Sign::Comma => 67,
        Sign::Dot => 68,
        Sign::SafeDot => 69,
        Sign::Colon => 70,
        Sign::ColonColon => 71,
        Sign::Semicolon => 72,
        Sign::Rocket => 73,
        Sign::Arrow => 74,
        Sign::Equals => 75,
        Sign::Question => 76,
        Sign::Bar => 77,
        Sign::BarBar => 78,
        Sign::Ampersand => 79,
        Sign::AmpersandAmpersand => 80,
        Sign::Bang => 81,
        Sign::Tilde => 82,
        Sign::Plus => 83,
        Sign::Minus => 84,
        Sign::Star => 85,
        Sign::Slash => 86,
        Sign::Percent => 87,
        Sign::StarStar => 88,
        Sign::EqualsEquals => 89,
        Sign::BangEquals => 90,
        Sign::EqualsEqualsEquals => 91,
        Sign::EqualsTilde => 92,
        Sign::BangTilde => 93,
        Sign::Spaceship => 94,
        Sign::Less => 95,
        Sign::LessEquals => 96,
        Sign::Greater => 97,
        Sign::GreaterEquals => 98,
        Sign::LessLess => 99,
        Sign::GreaterGreater => 100,
        Sign::Caret => 101,
        Sign::DotDot => 102,
        Sign::DotDotDot => 103,
    }
}

/// The number of a kind of token, by which the grammar knows it.
pub fn kind_number(kind: RubyKind) -> u8
    ensures { result ≡ spec.kind_number kind }
{
    match kind {
        RubyKind::Newline => 0,
        RubyKind::End => 1,
        RubyKind::Identifier => 2,
        RubyKind::Constant => 3,
        RubyKind::Label => 4,
        RubyKind::NamedWord => 5,
        RubyKind::NamedConstant => 6,
        RubyKind::NamedSelf => 7,
        RubyKind::NamedOperator => 8,
        RubyKind::InstanceVariable => 9,
        RubyKind::ClassVariable => 10,
        RubyKind::GlobalVariable => 11,
        RubyKind::Integer => 12,
        RubyKind::Symbol => 13,
        RubyKind::Assigning => 14,
        RubyKind::StringOpen => 15,
        RubyKind::StringClose => 16,
        RubyKind::SymbolOpen => 17,
        RubyKind::SymbolClose => 18,
        RubyKind::RegexpOpen => 19,
        RubyKind::RegexpClose => 20,
        RubyKind::HeredocOpen => 21,
        RubyKind::HeredocClose => 22,
        RubyKind::Part => 23,
        RubyKind::CodeOpen => 24,
        RubyKind::CodeClose => 25,
        RubyKind::WordsOpen => 26,
        RubyKind::Word => 27,
        RubyKind::WordsClose => 28,
        RubyKind::Keyword(keyword) => keyword_number(keyword),
        RubyKind::Sign(sign) => sign_number(sign),
        RubyKind::Prefix(sign) => prefix_number(sign),
    }
}
