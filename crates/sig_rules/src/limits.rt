use src_text::NoMemory;

/// What a project may have too much of.
#[derive(Clone, Copy, Debug, PartialEq, Eq)]
pub enum Limit {
    /// Bytes of a file.
    File,
    /// Files.
    Files,
    /// Bytes of all files together.
    Total,
    /// Declared names.
    Names,
    /// Methods of a definition.
    Methods,
}

/// Why declarations have no table.
#[derive(Clone, Copy, Debug, PartialEq, Eq)]
pub enum TableFault {
    /// So many names are declared, and they are too many.
    Names(u64),
    NoMemory,
}

impl From<NoMemory> for TableFault {
    ghost use Rattle.std.specs.Prelude.{◌≡◌};
    ghost use Rattle.sig_rules.specs.declared.limits.TableFault.TheVariants as fault;

    ghost from_gives = { λ _ e. e ≡ fault.NoMemory };

    fn from(_: NoMemory) -> Self {
        TableFault::NoMemory
    }
}

/// Why a project's signatures can't be used.
#[derive(Clone, Copy, Debug, PartialEq, Eq)]
pub enum LimitFault {
    /// There is so much of this, and it is too much.
    Limit(Limit, u64),
    NoMemory,
}

impl From<NoMemory> for LimitFault {
    ghost use Rattle.std.specs.Prelude.{◌≡◌};
    ghost use Rattle.sig_rules.specs.declared.limits.LimitFault.TheVariants as fault;

    ghost from_gives = { λ _ e. e ≡ fault.NoMemory };

    fn from(_: NoMemory) -> Self {
        LimitFault::NoMemory
    }
}

/// Why a class, a module or an interface has no definition.
#[derive(Clone, Copy, Debug, PartialEq, Eq)]
pub enum BuildFault {
    /// It has so many methods, and they are too many.
    Methods(u64),
    NoMemory,
}

impl From<NoMemory> for BuildFault {
    ghost use Rattle.std.specs.Prelude.{◌≡◌};
    ghost use Rattle.sig_rules.specs.declared.limits.BuildFault.TheVariants as fault;

    ghost from_gives = { λ _ e. e ≡ fault.NoMemory };

    fn from(_: NoMemory) -> Self {
        BuildFault::NoMemory
    }
}
