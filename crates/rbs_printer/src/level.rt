ghost use Rattle.std.specs.Prelude.{◌≡◌};
ghost use Rattle.rbs_printer.specs.Printed as spec;

/// The levels of the grammar of types, from the one that binds least.
#[derive(Clone, Copy, Debug, PartialEq, Eq)]
pub enum Level {
    Union,
    Inter,
    Optional,
    Base,
}

/// What a type's text begins with.
#[derive(Clone, Copy, Debug, PartialEq, Eq)]
pub enum Front {
    /// A word that is the whole text: with a `?` directly behind it, it is the name of a method where one may stand.
    Word,
    /// What is the name of a method where one may stand: a word and `?`, digits, `[]` or `^`.
    Name,
    /// What is read alike everywhere.
    Other,
}

/// Whether the first level is below the second.
pub fn is_below(level: Level, wanted: Level) -> bool
    ensures { result ≡ spec.is_below level wanted }
{
    match (level, wanted) {
        (Level::Union, Level::Inter | Level::Optional | Level::Base) => true,
        (Level::Inter, Level::Optional | Level::Base) => true,
        (Level::Optional, Level::Base) => true,
        _ => false,
    }
}
