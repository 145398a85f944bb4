ghost use Rattle.std.specs.Prelude.{◌≡◌};
ghost use Rattle.definitions.specs.Tables.{definition_on, side_on};

use line_members::Side;
use sig_rules::{Definition, Kind};

/// Both sides of a class or a module, each with what is found along its line.
#[derive(Debug, Drop)]
pub(crate) struct Sides {
    pub(crate) instance: Side,
    pub(crate) singleton: Side,
}

/// One of two sides.
pub(crate) fn side_on(sides: &Sides, kind: Kind) -> &Side
    ensures { result.now ≡ side_on kind sides.now }
{
    match kind {
        Kind::Instance => &sides.instance,
        Kind::Singleton => &sides.singleton,
    }
}

/// The definition of one of two sides.
pub(crate) fn definition_on(sides: &Sides, kind: Kind) -> &Definition
    ensures { result.now ≡ definition_on kind sides.now }
{
    &side_on(sides, kind).definition
}
