ghost use Rattle.std.specs.Prelude.{◌≡◌, Bool};
ghost use Rattle.rbs_grammar.specs.Rules as rules;
ghost use Rattle.rbs_grammar.specs.Types as types;
ghost use Rattle.rbs_grammar.specs.Declarations as decls;
ghost use Rattle.rbs_parser.specs.Sets.{tokens_of};

use rbs_lexer::Kind;

/// A set of kinds of token that a rule asks for.
#[derive(Clone, Copy, Debug, PartialEq, Eq)]
pub enum Set {
    One(Kind),
    /// Words that begin with a small letter, keywords among them.
    Small,
    /// All words.
    Word,
    /// What can be the name of a method.
    Name,
    /// The same, but for `self` and `self?`.
    OtherName,
    /// The words of attributes.
    Attribute,
    /// `public` and `private`.
    Visibility,
    /// `include`, `extend` and `prepend`.
    Mixin,
    /// What is a type by itself.
    Single,
    /// `in` and `out`.
    Variance,
}

impl Set {
    /// Whether a token of this kind is in the set.
    pub fn has(self, kind: Kind) -> bool
        ensures { (line : Bool) → result ≡ tokens_of self kind line }
    {
        match self {
            Set::One(one) => one == kind,
            Set::Small => is_small(kind),
            Set::Word => is_word(kind),
            Set::Name => is_name(kind),
            Set::OtherName => is_other_name(kind),
            Set::Attribute => is_attribute(kind),
            Set::Visibility => is_visibility(kind),
            Set::Mixin => is_mixin(kind),
            Set::Single => is_single(kind),
            Set::Variance => is_variance(kind),
        }
    }
}

fn is_small(kind: Kind) -> bool
    ensures { (line : Bool) → result ≡ rules.is_small kind line }
{
    match kind {
        Kind::Word
        | Kind::Alias
        | Kind::As
        | Kind::AttrAccessor
        | Kind::AttrReader
        | Kind::AttrWriter
        | Kind::Bool
        | Kind::Bot
        | Kind::Class
        | Kind::Def
        | Kind::End
        | Kind::Extend
        | Kind::False
        | Kind::In
        | Kind::Include
        | Kind::Instance
        | Kind::Interface
        | Kind::Module
        | Kind::Nil
        | Kind::Out
        | Kind::Prepend
        | Kind::Private
        | Kind::Public
        | Kind::SelfWord
        | Kind::Singleton
        | Kind::Top
        | Kind::True
        | Kind::Type
        | Kind::Unchecked
        | Kind::Untyped
        | Kind::Use
        | Kind::Void => true,
        _ => false,
    }
}

fn is_word(kind: Kind) -> bool
    ensures { (line : Bool) → result ≡ rules.is_word kind line }
{
    match kind {
        Kind::Constant
        | Kind::InterfaceName
        | Kind::Word
        | Kind::Alias
        | Kind::As
        | Kind::AttrAccessor
        | Kind::AttrReader
        | Kind::AttrWriter
        | Kind::Bool
        | Kind::Bot
        | Kind::Class
        | Kind::Def
        | Kind::End
        | Kind::Extend
        | Kind::False
        | Kind::In
        | Kind::Include
        | Kind::Instance
        | Kind::Interface
        | Kind::Module
        | Kind::Nil
        | Kind::Out
        | Kind::Prepend
        | Kind::Private
        | Kind::Public
        | Kind::SelfWord
        | Kind::Singleton
        | Kind::Top
        | Kind::True
        | Kind::Type
        | Kind::Unchecked
        | Kind::Untyped
        | Kind::Use
        | Kind::Void => true,
        _ => false,
    }
}

fn is_other_name(kind: Kind) -> bool
    ensures { (line : Bool) → result ≡ rules.is_other_name kind line }
{
    match kind {
        Kind::Constant
        | Kind::InterfaceName
        | Kind::MethodName
        | Kind::Bar
        | Kind::Ampersand
        | Kind::Word
        | Kind::Alias
        | Kind::As
        | Kind::AttrAccessor
        | Kind::AttrReader
        | Kind::AttrWriter
        | Kind::Bool
        | Kind::Bot
        | Kind::Class
        | Kind::Def
        | Kind::End
        | Kind::Extend
        | Kind::False
        | Kind::In
        | Kind::Include
        | Kind::Instance
        | Kind::Interface
        | Kind::Module
        | Kind::Nil
        | Kind::Out
        | Kind::Prepend
        | Kind::Private
        | Kind::Public
        | Kind::Singleton
        | Kind::Top
        | Kind::True
        | Kind::Type
        | Kind::Unchecked
        | Kind::Untyped
        | Kind::Use
        | Kind::Void => true,
        _ => false,
    }
}

fn is_name(kind: Kind) -> bool
    ensures { (line : Bool) → result ≡ rules.is_name kind line }
{
    match kind {
        Kind::Constant
        | Kind::InterfaceName
        | Kind::MethodName
        | Kind::Bar
        | Kind::Ampersand
        | Kind::SelfQuestion
        | Kind::Word
        | Kind::Alias
        | Kind::As
        | Kind::AttrAccessor
        | Kind::AttrReader
        | Kind::AttrWriter
        | Kind::Bool
        | Kind::Bot
        | Kind::Class
        | Kind::Def
        | Kind::End
        | Kind::Extend
        | Kind::False
        | Kind::In
        | Kind::Include
        | Kind::Instance
        | Kind::Interface
        | Kind::Module
        | Kind::Nil
        | Kind::Out
        | Kind::Prepend
        | Kind::Private
        | Kind::Public
        | Kind::SelfWord
        | Kind::Singleton
        | Kind::Top
        | Kind::True
        | Kind::Type
        | Kind::Unchecked
        | Kind::Untyped
        | Kind::Use
        | Kind::Void => true,
        _ => false,
    }
}

fn is_attribute(kind: Kind) -> bool
    ensures { (line : Bool) → result ≡ rules.is_attribute kind line }
{
    match kind {
        Kind::AttrReader | Kind::AttrWriter | Kind::AttrAccessor => true,
        _ => false,
    }
}

fn is_visibility(kind: Kind) -> bool
    ensures { (line : Bool) → result ≡ rules.is_visibility kind line }
{
    match kind {
        Kind::Public | Kind::Private => true,
        _ => false,
    }
}

fn is_mixin(kind: Kind) -> bool
    ensures { (line : Bool) → result ≡ rules.is_mixin kind line }
{
    match kind {
        Kind::Include | Kind::Extend | Kind::Prepend => true,
        _ => false,
    }
}

fn is_single(kind: Kind) -> bool
    ensures { (line : Bool) → result ≡ types.is_single kind line }
{
    match kind {
        Kind::Integer
        | Kind::String
        | Kind::Symbol
        | Kind::True
        | Kind::False
        | Kind::SelfWord
        | Kind::Instance
        | Kind::Class
        | Kind::Bool
        | Kind::Untyped
        | Kind::Nil
        | Kind::Top
        | Kind::Bot
        | Kind::Void => true,
        _ => false,
    }
}

fn is_variance(kind: Kind) -> bool
    ensures { (line : Bool) → result ≡ decls.is_variance kind line }
{
    match kind {
        Kind::In | Kind::Out => true,
        _ => false,
    }
}
