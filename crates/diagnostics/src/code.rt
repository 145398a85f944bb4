ghost use Rattle.std.specs.Prelude.{◌≡◌, Some, refl, nat_eq};
ghost use Rattle.std.specs.Cmp.{on_per, on_equiv, on_po, on_total, partial_equiv_from_equiv};
ghost use Rattle.std.specs.Cmp.Lexicographic.{pointwise, slice_cmp, nat_list_eq_equiv, nat_list_cmp_total, texts_po, texts_ties};
ghost use Rattle.std.specs.Ordering.{nat_cmp};
ghost use Rattle.diagnostics.specs.Codes.{code_name};

use std::cmp::Ordering;

/// What kind of finding a diagnostic is. Codes are equal and ordered as their printed names are, by bytes.
#[derive(Clone, Copy, Debug)]
pub enum Code {
    // In signatures.
    RbsSyntaxError,
    UnknownTypeName,
    InvalidTypeApplication,
    DuplicatedDeclaration,
    DuplicatedMethodDefinition,
    RecursiveAncestor,
    RecursiveTypeAlias,
    SuperclassMismatch,
    InvalidVarianceAnnotation,
    UnknownMethodAlias,
    InvalidMethodOverload,
    UnsatisfiableTypeApplication,
    CyclicClassAlias,
    WrongAliasKind,

    // In Ruby code.
    RubySyntaxError,
    UnsupportedSyntax,
    NoMethod,
    ArgumentTypeMismatch,
    UnresolvedOverloading,
    InsufficientPositionalArguments,
    UnexpectedPositionalArgument,
    InsufficientKeywordArguments,
    UnexpectedKeywordArgument,
    RequiredBlockMissing,
    UnexpectedBlockGiven,
    BlockBodyTypeMismatch,
    MethodBodyTypeMismatch,
    MethodParameterMismatch,
    ReturnTypeMismatch,
    IncompatibleAssignment,
    UnknownConstant,
    UnknownInstanceVariable,
    UnknownGlobalVariable,
    UndeclaredMethodDefinition,
    MethodDefinitionMissing,
    UnexpectedSuper,
    UnexpectedYield,
    AnnotationSyntaxError,
    FalseAssertion,
    MisplacedAnnotation,
}

impl Code {
    /// The printed name.
    pub fn name(self) -> &'static str
        ensures { result.now ≡ code_name self }
    {
        match self {
            Code::RbsSyntaxError => "RBS::SyntaxError",
            Code::UnknownTypeName => "RBS::UnknownTypeName",
            Code::InvalidTypeApplication => "RBS::InvalidTypeApplication",
            Code::DuplicatedDeclaration => "RBS::DuplicatedDeclaration",
            Code::DuplicatedMethodDefinition => "RBS::DuplicatedMethodDefinition",
            Code::RecursiveAncestor => "RBS::RecursiveAncestor",
            Code::RecursiveTypeAlias => "RBS::RecursiveTypeAlias",
            Code::SuperclassMismatch => "RBS::SuperclassMismatch",
            Code::InvalidVarianceAnnotation => "RBS::InvalidVarianceAnnotation",
            Code::UnknownMethodAlias => "RBS::UnknownMethodAlias",
            Code::InvalidMethodOverload => "RBS::InvalidMethodOverload",
            Code::UnsatisfiableTypeApplication => "RBS::UnsatisfiableTypeApplication",
            Code::CyclicClassAlias => "RBS::CyclicClassAlias",
            Code::WrongAliasKind => "RBS::WrongAliasKind",
            Code::RubySyntaxError => "Ruby::SyntaxError",
            Code::UnsupportedSyntax => "Ruby::UnsupportedSyntax",
            Code::NoMethod => "Ruby::NoMethod",
            Code::ArgumentTypeMismatch => "Ruby::ArgumentTypeMismatch",
            Code::UnresolvedOverloading => "Ruby::UnresolvedOverloading",
            Code::InsufficientPositionalArguments => "Ruby::InsufficientPositionalArguments",
            Code::UnexpectedPositionalArgument => "Ruby::UnexpectedPositionalArgument",
            Code::InsufficientKeywordArguments => "Ruby::InsufficientKeywordArguments",
            Code::UnexpectedKeywordArgument => "Ruby::UnexpectedKeywordArgument",
            Code::RequiredBlockMissing => "Ruby::RequiredBlockMissing",
            Code::UnexpectedBlockGiven => "Ruby::UnexpectedBlockGiven",
            Code::BlockBodyTypeMismatch => "Ruby::BlockBodyTypeMismatch",
            Code::MethodBodyTypeMismatch => "Ruby::MethodBodyTypeMismatch",
            Code::MethodParameterMismatch => "Ruby::MethodParameterMismatch",
            Code::ReturnTypeMismatch => "Ruby::ReturnTypeMismatch",
            Code::IncompatibleAssignment => "Ruby::IncompatibleAssignment",
            Code::UnknownConstant => "Ruby::UnknownConstant",
            Code::UnknownInstanceVariable => "Ruby::UnknownInstanceVariable",
            Code::UnknownGlobalVariable => "Ruby::UnknownGlobalVariable",
            Code::UndeclaredMethodDefinition => "Ruby::UndeclaredMethodDefinition",
            Code::MethodDefinitionMissing => "Ruby::MethodDefinitionMissing",
            Code::UnexpectedSuper => "Ruby::UnexpectedSuper",
            Code::UnexpectedYield => "Ruby::UnexpectedYield",
            Code::AnnotationSyntaxError => "Ruby::AnnotationSyntaxError",
            Code::FalseAssertion => "Ruby::FalseAssertion",
            Code::MisplacedAnnotation => "Ruby::MisplacedAnnotation",
        }
    }
}

impl PartialEq for Code {
    ghost eq = { λ x y. pointwise nat_eq (code_name x) (code_name y) };

    ghost laws = { on_per code_name (partial_equiv_from_equiv nat_list_eq_equiv) };

    fn eq(&self, other: &Self) -> bool {
        self.name() == other.name()
    }
}

impl Eq for Code {
    ghost laws = { on_equiv code_name nat_list_eq_equiv };
}

impl PartialOrd for Code {
    ghost partial_cmp = { λ x y. Some (slice_cmp nat_cmp (code_name x) (code_name y)) };

    ghost laws = { on_po code_name texts_po };

    fn partial_cmp(&self, other: &Self) -> Option<Ordering> {
        Some(self.cmp(other))
    }
}

impl Ord for Code {
    ghost cmp = { λ x y. slice_cmp nat_cmp (code_name x) (code_name y) };

    ghost total = { on_total code_name nat_list_cmp_total };

    ghost matches_partial_cmp = { λ x y. refl };

    ghost matches_eq = { λ x y. texts_ties (code_name x) (code_name y) };

    fn cmp(&self, other: &Self) -> Ordering {
        self.name().cmp(other.name())
    }
}
