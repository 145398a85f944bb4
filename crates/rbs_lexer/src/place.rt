ghost use Rattle.std.specs.Prelude.{◌≡◌, ◌+◌, drop};
ghost use Rattle.rbs_lexer.specs.Places as places;

use crate::kind::Kind;

/// What the tokens before a place say of it.
#[derive(Clone, Copy, Debug, PartialEq, Eq)]
pub enum Place {
    Plain,
    /// Behind `self`: a `.` leads to a name.
    BehindSelf,
    /// The name of a method or an attribute.
    Name,
    /// The new name of an alias.
    NewName,
    /// The old name of an alias.
    OldName,
    /// The old name of an alias, or a `.` behind `self` that leads to the new one.
    OldNameBehindSelf,
    /// Behind a `self` that stands as the old name: a `.` leads to the old name.
    BehindOldSelf,
}

/// The place behind a token that stands at a place.
#[tactic(auto, unfolding(crate::specs::Places::after))]
pub fn after(place: Place, kind: Kind, text: &str) -> Place
    ensures { result ≡ places.after place kind text.now }
{
    match place {
        Place::Plain => behind_word(kind),
        Place::BehindSelf => dot_leads(Place::Name, kind),
        Place::Name => behind_name(Place::BehindSelf, Place::Plain, kind, text),
        Place::NewName => behind_name(Place::OldNameBehindSelf, Place::OldName, kind, text),
        Place::OldName => behind_name(Place::BehindOldSelf, Place::Plain, kind, text),
        Place::OldNameBehindSelf => match kind {
            Kind::Dot => Place::NewName,
            _ => behind_name(Place::BehindOldSelf, Place::Plain, kind, text),
        },
        Place::BehindOldSelf => dot_leads(Place::OldName, kind),
    }
}

/// Whether a name may stand at the place.
pub fn has_name(place: Place) -> bool
    ensures { result ≡ places.has_name place }
{
    match place {
        Place::Plain | Place::BehindSelf | Place::BehindOldSelf => false,
        Place::Name | Place::NewName | Place::OldName | Place::OldNameBehindSelf => true,
    }
}

/// Whether a `=` before these bytes belongs to a name at the place.
pub fn takes_equals(place: Place, next: &[u8]) -> bool
    ensures { result ≡ places.takes_equals place next.now }
{
    match place {
        Place::Name => match next {
            [b':', ..] => true,
            _ => false,
        },
        _ => true,
    }
}

// A `.` leads to the place.
fn dot_leads(place: Place, kind: Kind) -> Place
    ensures { result ≡ places.dot_leads place kind }
{
    match kind {
        Kind::Dot => place,
        _ => behind_word(kind),
    }
}

// A name leads to one of two places, by whether it is `self` or `self?`.
fn behind_name(behind_self: Place, behind_other: Place, kind: Kind, text: &str) -> Place
    ensures { result ≡ places.behind_name behind_self behind_other kind text.now }
{
    if !is_name(kind) {
        return behind_word(kind);
    }
    if is_self(text) {
        behind_self
    } else {
        behind_other
    }
}

fn is_self(text: &str) -> bool
    ensures { result ≡ places.is_self text.now }
{
    text == "self" || text == "self?"
}

// The place behind a token that is no name.
fn behind_word(kind: Kind) -> Place
    ensures { result ≡ places.behind_word kind }
{
    match kind {
        Kind::Def | Kind::AttrReader | Kind::AttrWriter | Kind::AttrAccessor => Place::Name,
        Kind::Alias => Place::NewName,
        Kind::SelfWord => Place::BehindSelf,
        _ => Place::Plain,
    }
}

// Whether a token of this kind is a name where one may stand: a word, what only a name can be, `|` or `&`.
fn is_name(kind: Kind) -> bool
    ensures { result ≡ places.is_name kind }
{
    match kind {
        Kind::LeftParen
        | Kind::RightParen
        | Kind::LeftBracket
        | Kind::RightBracket
        | Kind::LeftBrace
        | Kind::RightBrace
        | Kind::Comma
        | Kind::Colon
        | Kind::ColonColon
        | Kind::Dot
        | Kind::Question
        | Kind::Star
        | Kind::StarStar
        | Kind::Caret
        | Kind::Arrow
        | Kind::Equals
        | Kind::Less
        | Kind::Ellipsis
        | Kind::InstanceVariable
        | Kind::ClassVariable
        | Kind::Global
        | Kind::Integer
        | Kind::String
        | Kind::Symbol => false,
        _ => true,
    }
}
