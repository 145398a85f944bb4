ghost use Rattle.std.specs.Prelude.{◌≡◌, ◌≤◌, ◌<◌, ◌+◌, ◌^◌, length, map, bytes_eq, codes, if◌then◌else◌, IsTrue, Ok};
ghost use Rattle.ruby_lexer.specs.declared.kind.RubyKind.TheVariants as k;
ghost use Rattle.ruby_lexer.specs.Characters.{first_is, is_upper};
ghost use Rattle.ruby_lexer.specs.Words as spec;
ghost use Rattle.ruby_lexer.specs.Answers.{Gives};

use crate::characters::{
    begins, begins_with_mark, begins_with_upper, behind, marked_len, word_characters_len, word_len,
};
use crate::kind::{Keyword, RubyKind};
use crate::kinds::{is_second, precedes_name};
use crate::lines::{begins_line, is_bare_line};
use crate::placing::{no_token, refused, text_value, token};
use crate::refusal::{Form, RubyAt};
use crate::state::State;
use crate::symbols::operator_len;
use crate::token::{RubyToken, RubyValue};
use std::alloc::Global;

const KEYWORDS: [(&str, Keyword); 32] = [
    ("alias", Keyword::Alias),
    ("and", Keyword::And),
    ("begin", Keyword::Begin),
    ("break", Keyword::Break),
    ("case", Keyword::Case),
    ("class", Keyword::Class),
    ("def", Keyword::Def),
    ("defined?", Keyword::Defined),
    ("do", Keyword::Do),
    ("else", Keyword::Else),
    ("elsif", Keyword::Elsif),
    ("end", Keyword::End),
    ("ensure", Keyword::Ensure),
    ("false", Keyword::False),
    ("if", Keyword::If),
    ("module", Keyword::Module),
    ("next", Keyword::Next),
    ("nil", Keyword::Nil),
    ("not", Keyword::Not),
    ("or", Keyword::Or),
    ("rescue", Keyword::Rescue),
    ("return", Keyword::Return),
    ("self", Keyword::SelfWord),
    ("super", Keyword::Super),
    ("then", Keyword::Then),
    ("true", Keyword::True),
    ("unless", Keyword::Unless),
    ("until", Keyword::Until),
    ("when", Keyword::When),
    ("while", Keyword::While),
    ("yield", Keyword::Yield),
    ("__FILE__", Keyword::File),
];

const REFUSED_WORDS: [(&str, Form); 18] = [
    ("BEGIN", Form::BeginBlock),
    ("END", Form::EndBlock),
    ("__LINE__", Form::Line),
    ("__ENCODING__", Form::Encoding),
    ("for", Form::For),
    ("redo", Form::Redo),
    ("retry", Form::Retry),
    ("undef", Form::Undef),
    ("in", Form::Pattern),
    ("_1", Form::NumberedParameter),
    ("_2", Form::NumberedParameter),
    ("_3", Form::NumberedParameter),
    ("_4", Form::NumberedParameter),
    ("_5", Form::NumberedParameter),
    ("_6", Form::NumberedParameter),
    ("_7", Form::NumberedParameter),
    ("_8", Form::NumberedParameter),
    ("_9", Form::NumberedParameter),
];

// What a table has for these bytes.
fn entry<T: Copy>(bytes: &[u8], table: &[(&str, T)]) -> Option<T>
    ensures { result ≡ spec.entry bytes.now (map (λ e. (e.0.now, e.1)) table.now) }
{
    for (key, found) in table {
        if bytes == key.as_bytes() {
            return Some(*found);
        }
    }
    None
}

fn keyword(bytes: &[u8]) -> Option<Keyword>
    ensures { result ≡ spec.entry bytes.now spec.keywords }
{
    entry(bytes, &KEYWORDS)
}

fn refused_form(bytes: &[u8]) -> Option<Form>
    ensures { result ≡ spec.entry bytes.now spec.refused_words }
{
    entry(bytes, &REFUSED_WORDS)
}

/// A word as it is read where it is no label: a lower-case one with the mark that it takes.
pub fn whole_word_len(text: &[u8]) -> usize
    ensures value { result ≡ spec.whole_word_len text.now }
    ensures within { result ≤ length text.now }
{
    if begins_with_upper(text) {
        word_len(text)
    } else {
        marked_len(text)
    }
}

// Whether one `:` is here, and not two.
fn is_colon(text: &[u8]) -> bool
    ensures value { result ≡ spec.is_colon text.now }
    ensures within { IsTrue result → 1 ≤ length text.now }
{
    match text {
        [first, rest @ ..] => *first == b':' && !begins(b':', rest),
        [] => false,
    }
}

// How long a label is behind its word.
fn label_tail_len(text: &[u8]) -> usize
    ensures value { result ≡ spec.label_tail_len text.now }
    ensures within { result ≤ length text.now }
{
    match text {
        [_, rest @ ..] => {
            if is_colon(text) {
                1
            } else if begins_with_mark(text) && is_colon(rest) {
                2
            } else {
                0
            }
        }
        [] => 0,
    }
}

// A label with its `:`.
fn label_len(text: &[u8]) -> usize
    ensures value { result ≡ spec.label_len text.now }
    ensures within { result ≤ length text.now }
{
    let len = word_len(text);
    let tail = label_tail_len(&text[len..]);
    if tail == 0 { 0 } else { len + tail }
}

// Whether the word here ends the script.
fn ends_script(text: &[u8], state: State, rest: &[u8]) -> bool
    requires { state.place ≤ length text.now }
    ensures value { result ≡ spec.ends_script text.now state rest.now }
    ensures within { IsTrue result → 7 ≤ length rest.now }
{
    begins_line(text, state.place) && is_bare_line("__END__", rest)
}

// A word that isn't refused.
fn word_token(alloc: Global, state: State, run: &[u8]) -> Result<RubyToken, RubyAt>
    requires { state.place + length run.now < 2 ^ 32 }
    ensures { Gives result (Ok (spec.word_token state run.now (spec.entry run.now spec.keywords))) }
{
    match keyword(run) {
        Some(word) => Ok(token(state, RubyKind::Keyword(word), RubyValue::Absent, run.len())),
        None => {
            let value = text_value(alloc, run)?;
            Ok(token(state, plain_kind(run), value, run.len()))
        }
    }
}

// The kind of a word that is no keyword and no name.
fn plain_kind(run: &[u8]) -> RubyKind
    ensures { result ≡ (if first_is is_upper run.now then k.Constant else k.Identifier) }
{
    if begins_with_upper(run) {
        RubyKind::Constant
    } else {
        RubyKind::Identifier
    }
}

// A word that is no label.
fn plain_word(alloc: Global, state: State, run: &[u8]) -> Result<RubyToken, RubyAt>
    requires { state.place + length run.now < 2 ^ 32 }
    ensures { Gives result (spec.plain_word state run.now (spec.entry run.now spec.refused_words)) }
{
    match refused_form(run) {
        Some(form) => Err(refused(state, run.len(), form)),
        None => word_token(alloc, state, run),
    }
}

/// The word here, where no name stands.
#[tactic(auto, unfolding(crate::specs::Words::word_here))]
pub fn word_here(alloc: Global, text: &[u8], state: State, rest: &[u8]) -> Result<RubyToken, RubyAt>
    requires within { state.place ≤ length text.now }
    requires fits { state.place + length rest.now < 2 ^ 32 }
    ensures { Gives result (spec.word_here text.now state rest.now) }
{
    let label = label_len(rest);
    if label != 0 {
        let value = text_value(alloc, &rest[..label - 1])?;
        return Ok(token(state, RubyKind::Label, value, label));
    }
    if ends_script(text, state, rest) {
        return Err(refused(state, 7, Form::EndOfScript));
    }
    let len = whole_word_len(rest);
    plain_word(alloc, state, &rest[..len])
}

// ---- names

/// Whether a name stands here.
pub fn is_place_of_name(state: State) -> bool
    ensures { result ≡ spec.is_place_of_name state }
{
    is_second(state.alias) || precedes_name(state.last)
}

fn is_self(run: &[u8]) -> bool
    ensures { result ≡ bytes_eq run.now (codes "self") }
{
    run == "self".as_bytes()
}

// The kind of a word that is a name.
fn name_kind(run: &[u8]) -> RubyKind
    ensures { result ≡ spec.name_kind run.now }
{
    if is_self(run) {
        RubyKind::NamedSelf
    } else if begins_with_upper(run) {
        RubyKind::NamedConstant
    } else {
        RubyKind::NamedWord
    }
}

/// The name here: a word, or else the longest operator.
#[tactic(auto, unfolding(crate::specs::Words::name_here))]
pub fn name_here(alloc: Global, state: State, rest: &[u8]) -> Result<Option<RubyToken>, RubyAt>
    requires { state.place + length rest.now < 2 ^ 32 }
    ensures { Gives result (Ok (spec.name_here state rest.now)) }
{
    let len = whole_word_len(rest);
    if len != 0 {
        let run = &rest[..len];
        let value = text_value(alloc, run)?;
        return Ok(Some(token(state, name_kind(run), value, len)));
    }
    let len = operator_len(rest);
    if len == 0 {
        return Ok(None);
    }
    let value = text_value(alloc, &rest[..len])?;
    Ok(Some(token(state, RubyKind::NamedOperator, value, len)))
}

// ---- variables

// A variable of so many characters behind its signs.
fn named_variable(
    alloc: Global,
    state: State,
    rest: &[u8],
    kind: RubyKind,
    signs: usize,
    len: usize,
) -> Result<RubyToken, RubyAt>
    requires fits { state.place + length rest.now < 2 ^ 32 }
    requires within { signs + len ≤ length rest.now }
    requires some { 0 < length rest.now }
    ensures { Gives result (spec.named_variable state rest.now kind signs len) }
{
    if len == 0 {
        return Err(no_token(state.place, 1));
    }
    let value = text_value(alloc, &rest[..signs + len])?;
    Ok(token(state, kind, value, signs + len))
}

/// The variable here: behind `$` stand any characters of words, behind `@` and `@@` a word.
#[tactic(auto, unfolding(crate::specs::Words::variable_here))]
pub fn variable_here(alloc: Global, state: State, rest: &[u8]) -> Result<RubyToken, RubyAt>
    requires fits { state.place + length rest.now < 2 ^ 32 }
    requires some { 0 < length rest.now }
    ensures { Gives result (spec.variable_here state rest.now) }
{
    match rest {
        [b'$', name @ ..] => {
            let len = word_characters_len(name);
            named_variable(alloc, state, rest, RubyKind::GlobalVariable, 1, len)
        }
        [_, b'@', name @ ..] => {
            let len = word_len(name);
            named_variable(alloc, state, rest, RubyKind::ClassVariable, 2, len)
        }
        [_, name @ ..] => {
            let len = word_len(name);
            named_variable(alloc, state, rest, RubyKind::InstanceVariable, 1, len)
        }
        [] => unreachable!(),
    }
}
