use rbs_lexer::Kind;
use rbs_tree::{Keyword, MethodType, Param};
use src_text::{Seq, Span, Text};

/// The words of a name, without a leading `::`.
#[derive(Debug, Drop)]
pub struct Words {
    pub path: Seq<Text>,
    /// From the first word to the last.
    pub at: Span,
    /// What the last word is.
    pub last: Kind,
}

/// The parameters of a function by their places.
#[derive(Debug, Drop)]
pub struct Parameters {
    pub required: Seq<Param>,
    pub optional: Seq<Param>,
    pub rest: Option<Param>,
    pub trailing: Seq<Param>,
    pub keywords: Seq<Keyword>,
    pub rest_keywords: Option<Param>,
}

/// The method types of a method.
#[derive(Debug, Drop)]
pub struct Overloads {
    pub methods: Seq<MethodType>,
    /// Whether `...` ends the list.
    pub more: bool,
}
