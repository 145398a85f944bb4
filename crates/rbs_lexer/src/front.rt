ghost use Rattle.std.specs.Prelude.{◌≡◌, ◌≤◌, ◌<◌, length, drop, slice_index, true, ◌||◌, IfSome};
ghost use Rattle.rbs_lexer.specs.Bytes.{first_is};
ghost use Rattle.rbs_lexer.specs.Finds as spec;
ghost use Rattle.rbs_lexer.specs.Words as words;
ghost use Rattle.rbs_lexer.specs.Signs as signs;

use crate::gaps::{annotation, gap_len, is_blank};
use crate::kind::Kind;
use crate::numbers::{begins_with_digit, number};
use crate::place::{Place, has_name, takes_equals};
use crate::quotes::{backquoted_len, string_len};
use crate::reading::{Found, longer, longer_len, of_kind, skipped};
use crate::signs::{operator_len, sign, special_name};
use crate::words::{any_word_len, begins_with_letter, marked_len, word, word_len};

/// The longest run at the front of a text at a place.
#[tactic(auto, using(crate::proofs::FirstBytes::gap_anywhere), unfolding(crate::specs::Finds::front_at))]
pub fn front(place: Place, text: &str) -> Option<Found>
    ensures { result ≡ spec.front_at place text.now }
{
    let bytes = text.as_bytes();
    if begins_with_gap(bytes) {
        skipped(gap_len(bytes))
    } else if has_name(place) {
        name_or_other(place, text)
    } else {
        ordinary(text)
    }
}

// The same where a name may stand.
#[tactic(auto, unfolding(crate::specs::Finds::name_front))]
fn name_or_other(place: Place, text: &str) -> Option<Found>
    ensures { result ≡ spec.name_front place text.now }
{
    let found = longer(
        of_kind(Kind::MethodName, method_name_len(place, text)),
        ordinary(text),
    );
    longer(special_name(text.as_bytes()), found)
}

// The longest run that can stand anywhere. The first byte, or the first two, mostly tell that it can only be a word or a sign.
#[tactic(auto, using(crate::proofs::FirstBytes::of_letter, crate::proofs::FirstBytes::of_sign))]
fn ordinary(text: &str) -> Option<Found>
    ensures { result ≡ spec.ordinary_front text.now }
{
    let bytes = text.as_bytes();
    if begins_with_letter(bytes) {
        word(text)
    } else if is_sign_alone(bytes) {
        sign(bytes)
    } else {
        other(text)
    }
}

// Whether the text begins with a blank or a comment.
fn begins_with_gap(text: &[u8]) -> bool
    ensures { result ≡ first_is spec.begins_gap text.now }
{
    match text {
        [first, ..] => begins_gap(*first),
        [] => false,
    }
}

fn begins_gap(byte: u8) -> bool
    ensures { result ≡ spec.begins_gap byte }
{
    byte == b'#' || is_blank(byte)
}

// Whether the text begins with a sign, and with nothing else that may be longer.
fn is_sign_alone(text: &[u8]) -> bool
    ensures { result ≡ spec.sign_alone text.now }
{
    match text {
        [first, second, ..] => begins_sign(*first) || begins_sign_by(*first, *second),
        [first] => begins_sign(*first),
        [] => false,
    }
}

fn begins_sign(byte: u8) -> bool
    ensures { result ≡ spec.begins_sign byte }
{
    byte == b'('
        || byte == b')'
        || byte == b'['
        || byte == b']'
        || byte == b'{'
        || byte == b'}'
        || byte == b','
        || byte == b'|'
        || byte == b'&'
        || byte == b'?'
        || byte == b'^'
        || byte == b'='
        || byte == b'<'
        || byte == b'.'
        || byte == b'*'
}

fn begins_sign_by(first: u8, second: u8) -> bool
    ensures { result ≡ spec.begins_sign_by first second }
{
    first == b'-' && second == b'>' || first == b':' && (second == b':' || is_blank(second))
}

// The longest run that can stand anywhere, whatever it begins with.
#[tactic(auto, unfolding(crate::specs::Finds::ordinary_front))]
fn other(text: &str) -> Option<Found>
    ensures { result ≡ spec.ordinary_front text.now }
{
    let bytes = text.as_bytes();
    let found = sign(bytes);
    let found = longer(variable(text), found);
    let found = longer(of_kind(Kind::Symbol, symbol_len(text)), found);
    let found = longer(of_kind(Kind::String, string_len(bytes)), found);
    let found = longer(number(bytes), found);
    let found = longer(word(text), found);
    let found = longer(annotation(bytes), found);
    longer(skipped(gap_len(bytes)), found)
}

#[tactic(auto, unfolding(crate::specs::Finds::variable_front))]
fn variable(text: &str) -> Option<Found>
    ensures { result ≡ spec.variable_front text.now }
{
    let found = of_kind(Kind::Global, word_behind(b'$', text));
    let found = longer(
        of_kind(Kind::ClassVariable, word_behind_two(b'@', text)),
        found,
    );
    longer(
        of_kind(Kind::InstanceVariable, word_behind(b'@', text)),
        found,
    )
}

// How long a sign and a word at the front are.
#[tactic(auto, unfolding(crate::specs::Finds::word_behind))]
fn word_behind(sign: u8, text: &str) -> Option<usize>
    requires { sign < 128 }
    ensures value { result ≡ spec.word_behind sign text.now }
    ensures within { IfSome result (λ len. len ≤ length text.now) }
{
    match text.as_bytes() {
        [first, ..] if *first == sign => Some(1 + any_word_len(behind_first(text))?),
        _ => None,
    }
}

// The same with the sign twice.
#[tactic(auto, unfolding(crate::specs::Finds::word_behind_two))]
fn word_behind_two(sign: u8, text: &str) -> Option<usize>
    requires { sign < 128 }
    ensures { result ≡ spec.word_behind_two sign text.now }
{
    match text.as_bytes() {
        [first, ..] if *first == sign => Some(1 + word_behind(sign, behind_first(text))?),
        _ => None,
    }
}

#[tactic(auto, unfolding(crate::specs::Finds::symbol_len))]
fn symbol_len(text: &str) -> Option<usize>
    ensures { result ≡ spec.symbol_len text.now }
{
    match text.as_bytes() {
        [b':', ..] => Some(1 + symbol_name_len(behind_first(text))?),
        _ => None,
    }
}

// How long what a symbol names is.
#[tactic(auto, unfolding(crate::specs::Finds::symbol_name_len))]
fn symbol_name_len(text: &str) -> Option<usize>
    ensures value { result ≡ spec.symbol_name_len text.now }
    ensures within { IfSome result (λ len. len ≤ length text.now) }
{
    let bytes = text.as_bytes();
    let found = longer_len(operator_len(bytes), string_len(bytes));
    let found = longer_len(marked_len(text, true), found);
    longer_len(any_word_len(text), found)
}

// How long the run at the front is that only the name of a method can be.
#[tactic(auto, unfolding(crate::specs::Finds::method_name_len))]
fn method_name_len(place: Place, text: &str) -> Option<usize>
    ensures { result ≡ spec.method_name_len (spec.takes_it place text.now) text.now }
{
    let bytes = text.as_bytes();
    let found = longer_len(operator_len(bytes), backquoted_len(bytes));
    let found = longer_len(numeric_len(text), found);
    longer_len(marked_len(text, takes_it(place, text)), found)
}

// How long a word is that begins with a digit.
fn numeric_len(text: &str) -> Option<usize>
    ensures { result ≡ spec.numeric_len text.now }
{
    if begins_with_digit(text.as_bytes()) {
        any_word_len(text)
    } else {
        None
    }
}

// Whether a `=` behind the word at the front is taken.
fn takes_it(place: Place, text: &str) -> bool
    ensures { result ≡ spec.takes_it place text.now }
{
    let bytes = text.as_bytes();
    let next = (word_len(text) + 1).min(bytes.len());
    takes_equals(place, &bytes[next..])
}

// What stands behind the first byte, which is one of ASCII.
#[tactic(auto, using(crate::proofs::Fronts::first_cut))]
fn behind_first(text: &str) -> &str
    requires some { 0 < length text.now }
    requires ascii { slice_index text.now 0 < 128 }
    ensures { result.now ≡ drop 1 text.now }
{
    &text[1..]
}

/// Whether `:` and the name are read as the symbol of that name: a word, a word with a mark, or an operator.
#[tactic(auto, using(crate::proofs::Whole::symbol_name_whole))]
pub fn is_symbol_name(name: &str) -> bool
    ensures { result ≡ (words.is_word name.now || (words.is_marked true name.now || signs.is_operator name.now)) }
{
    let found = longer_len(marked_len(name, true), operator_len(name.as_bytes()));
    is_all(longer_len(any_word_len(name), found), name)
}

/// Whether all of a text is a word.
#[tactic(auto, using(crate::proofs::Whole::word_whole))]
pub fn is_word(text: &str) -> bool
    ensures { result ≡ words.is_word text.now }
{
    is_all(any_word_len(text), text)
}

// Whether what is so long is all of the text.
fn is_all(len: Option<usize>, text: &str) -> bool
    ensures { result ≡ spec.is_all len text.now }
{
    match len {
        Some(len) => len == text.len(),
        None => false,
    }
}
