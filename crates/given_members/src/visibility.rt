ghost use Rattle.std.specs.Prelude.{◌≡◌};
ghost use Rattle.rbs_tree.specs.declared.decls.Side.TheVariants as side;
ghost use Rattle.sig_rules.specs.declared.line.Kind.TheVariants.{Instance};
ghost use Rattle.sig_rules.specs.Given.{by_word, is_on_side, section_behind, visibility};

use rbs_tree::{Member, Side};
use sig_rules::{Kind, Visibility};
use src_text::Text;

/// How a method is declared, seen from the methods of a kind.
#[derive(Clone, Copy)]
pub(crate) struct Standing {
    pub kind: Kind,
    pub side: Side,
    /// By a word before it, or else by its section.
    pub declared: Visibility,
}

impl Standing {
    /// How a member is declared on a side, in a section, with or without a word before it.
    pub fn new(kind: Kind, side: Side, public: Option<bool>, section: Visibility) -> Standing
        ensures { result ≡ record { kind = kind; side = side; declared = by_word public section } }
    {
        Standing {
            kind,
            side,
            declared: by_word(public, section),
        }
    }

    /// Whether it is a method of the kind.
    pub fn is_on_side(self) -> bool
        ensures { result ≡ is_on_side self.kind self.side }
    {
        is_on_side(self.kind, self.side)
    }

    /// The visibility under this name.
    pub fn visibility(self, name: &Text) -> Visibility
        ensures { result ≡ visibility self.kind name.now self.side self.declared }
    {
        visibility(self.kind, name, self.side, self.declared)
    }
}

/// Whether what is declared on a side is a method of this kind.
pub(crate) fn is_on_side(kind: Kind, side: Side) -> bool
    ensures { result ≡ is_on_side kind side }
{
    match side {
        Side::Both => true,
        Side::Instance => matches!(kind, Kind::Instance),
        Side::Singleton => matches!(kind, Kind::Singleton),
    }
}

// The visibility that a member declares by a word before it, or else has by its section.
fn by_word(public: Option<bool>, section: Visibility) -> Visibility
    ensures { result ≡ by_word public section }
{
    match public {
        None => section,
        Some(true) => Visibility::Public,
        Some(false) => Visibility::Private,
    }
}

// The visibility of a method of this kind and name, declared on a side with a visibility.
fn visibility(kind: Kind, name: &Text, side: Side, declared: Visibility) -> Visibility
    ensures { result ≡ visibility kind name.now side declared }
{
    match kind {
        Kind::Singleton => declared,
        Kind::Instance => match side {
            Side::Both => Visibility::Private,
            _ => unless_initialize(name, declared),
        },
    }
}

// The visibility of an instance's method that stands on its side alone: `initialize` is private.
fn unless_initialize(name: &Text, declared: Visibility) -> Visibility
    ensures { result ≡ visibility Instance name.now side.Instance declared }
{
    if name.as_str() == "initialize" {
        Visibility::Private
    } else {
        declared
    }
}

/// The section behind a member.
pub(crate) fn section_behind(section: Visibility, member: &Member) -> Visibility
    ensures { result ≡ section_behind section member.now }
{
    match member {
        Member::Public => Visibility::Public,
        Member::Private => Visibility::Private,
        _ => section,
    }
}
