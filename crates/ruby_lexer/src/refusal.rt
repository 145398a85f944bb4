ghost use Rattle.std.specs.Prelude.{◌≡◌};
ghost use Rattle.ruby_lexer.specs.Forms.{form_name};

use src_text::{NoMemory, Span};

/// Why a text is refused.
#[derive(Clone, Copy, Debug, PartialEq, Eq)]
pub enum RubyAt {
    /// What stands there can't stand there.
    Syntax(Span),
    /// More is open, or linked, there than may be.
    TooDeep(Span),
    /// What stands there is Ruby, but of a form that is refused.
    Unsupported(Span, Form),
    NoMemory,
}

impl From<NoMemory> for RubyAt {
    ghost use Rattle.std.specs.Prelude.{◌≡◌};
    ghost use Rattle.ruby_lexer.specs.declared.refusal.RubyAt.TheVariants as at;

    ghost from_gives = { λ _ e. e ≡ at.NoMemory };

    fn from(_: NoMemory) -> Self {
        RubyAt::NoMemory
    }
}

/// A form of Ruby that is refused.
#[derive(Clone, Copy, Debug, PartialEq, Eq)]
pub enum Form {
    // Tokens.
    Float,
    Rational,
    Imaginary,
    WideInteger,
    BeginBlock,
    EndBlock,
    EndOfScript,
    Line,
    Encoding,
    For,
    Redo,
    Retry,
    Undef,
    Pattern,
    NumberedParameter,
    Forwarding,

    // Nodes of the tree.
    FlipFlop,
    Using,
    Refine,
    DefineMethod,
    Eval,
    InstanceEval,
    ClassEval,
    ModuleEval,
    MethodMissing,
}

impl Form {
    /// The printed name.
    pub fn name(self) -> &'static str
        ensures { result.now ≡ form_name self }
    {
        match self {
            Form::Float => "float",
            Form::Rational => "rational",
            Form::Imaginary => "imaginary",
            Form::WideInteger => "wide integer",
            Form::BeginBlock => "BEGIN",
            Form::EndBlock => "END",
            Form::EndOfScript => "__END__",
            Form::Line => "__LINE__",
            Form::Encoding => "__ENCODING__",
            Form::For => "for",
            Form::Redo => "redo",
            Form::Retry => "retry",
            Form::Undef => "undef",
            Form::Pattern => "pattern",
            Form::NumberedParameter => "numbered parameter",
            Form::Forwarding => "forwarding",
            Form::FlipFlop => "flip-flop",
            Form::Using => "using",
            Form::Refine => "refine",
            Form::DefineMethod => "define_method",
            Form::Eval => "eval",
            Form::InstanceEval => "instance_eval",
            Form::ClassEval => "class_eval",
            Form::ModuleEval => "module_eval",
            Form::MethodMissing => "method_missing",
        }
    }
}
