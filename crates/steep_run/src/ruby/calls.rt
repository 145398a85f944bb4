//! Which statements are calls on a new object of a class.

ghost use Rattle.std.specs.Prelude.{◌≡◌, ◌&&◌, not, ℕ, length, codes, MatchOption, None, Some, true};
ghost use Rattle.std.specs.List.{list_all};
ghost use Rattle.std.specs.Option.{option_copied};
ghost use Rattle.steep_run.specs.Words.{is_lower_byte, begins, same_word};
ghost use Rattle.steep_run.specs.Ruby as ruby;

use super::keywords::is_keyword;
use ruby_tree::{ConstPath, Dot, Item, MethodName, Node, NodeKind};
use src_text::{Seq, Text};

// Above all integers that are passed.
const ABOVE_ALL: i128 = 1_000_000_000_000_000_000;

/// A call as it stands in a program.
#[derive(Clone, Copy, Debug)]
pub struct FoundCall<'a> {
    /// The class's one word.
    pub class: &'a Text,
    pub method: &'a MethodName,
    /// How many integers are passed.
    pub numbers: u64,
}

/// The call that a statement is, if it is one.
pub fn call_in(node: &Node) -> Option<FoundCall<'_>>
    ensures { MatchOption result (ruby.call_in node.now ≡ None) (λ found. ruby.call_in node.now ≡ Some (ruby.call_of found)) }
{
    match &node.kind {
        NodeKind::Call {
            receiver: Some(receiver),
            dot: Dot::Plain,
            method,
            args,
            block: None,
        } => call_on(receiver.get(), method, args),
        _ => None,
    }
}

// The call of a method on what a node makes, if it makes a new object of a class and only integers are passed.
fn call_on<'a>(
    receiver: &'a Node,
    method: &'a MethodName,
    args: &Seq<Item>,
) -> Option<FoundCall<'a>>
    ensures { MatchOption result (ruby.call_on receiver.now method.now args.now ≡ None) (λ found. ruby.call_on receiver.now method.now args.now ≡ Some (ruby.call_of found)) }
{
    if !is_method_name(&method.name) || !are_integers(args.as_slice()) {
        return None;
    }
    match new_of(receiver) {
        None => None,
        Some(class) => Some(FoundCall {
            class,
            method,
            numbers: args.len() as u64,
        }),
    }
}

// The word of the class that a node makes a new object of, if it does.
fn new_of(node: &Node) -> Option<&Text>
    ensures { option_copied result ≡ ruby.new_of node.now }
{
    match &node.kind {
        NodeKind::Call {
            receiver: Some(receiver),
            dot: Dot::Plain,
            method,
            args,
            block: None,
        } => new_on(receiver.get(), method, args),
        _ => None,
    }
}

// The word of the class whose `new` this call is, if it is one.
fn new_on<'a>(receiver: &'a Node, method: &MethodName, args: &Seq<Item>) -> Option<&'a Text>
    ensures { option_copied result ≡ ruby.new_on receiver.now method.now args.now }
{
    if method.name.as_str() != "new" || !args.is_empty() {
        return None;
    }
    class_word(receiver)
}

// The one word of a constant, if a node is one that is so written.
fn class_word(node: &Node) -> Option<&Text>
    ensures { option_copied result ≡ ruby.class_word node.now }
{
    match &node.kind {
        NodeKind::Const { scope: None, path } => path_word(path),
        _ => None,
    }
}

fn path_word(path: &ConstPath) -> Option<&Text>
    ensures { option_copied result ≡ ruby.path_word path.now }
{
    if path.absolute {
        return None;
    }
    match path.words.as_slice() {
        [word] if is_ascii(word) => Some(word),
        _ => None,
    }
}

// Whether a name is an ASCII word that begins as no constant does, and no keyword.
fn is_method_name(name: &Text) -> bool
    ensures { result ≡ ruby.is_method_name name.now }
{
    is_ascii(name) && begins_lower(name) && !is_keyword(name)
}

fn is_ascii(word: &Text) -> bool
    ensures { result ≡ list_all ruby.is_ascii_byte word.now }
{
    word.as_str().as_bytes().iter().all(|byte| *byte < 128)
}

fn begins_lower(name: &Text) -> bool
    ensures { result ≡ begins is_lower_byte name.now }
{
    match name.as_str().as_bytes() {
        [] => false,
        [first, ..] => *first == b'_' || first.is_ascii_lowercase(),
    }
}

fn are_integers(items: &[Item]) -> bool
    ensures { result ≡ list_all ruby.is_integer items.now }
{
    items.iter().all(|item| is_integer(item))
}

fn is_integer(item: &Item) -> bool
    ensures { result ≡ ruby.is_integer item.now }
{
    match item {
        Item::Value(node) => is_integer_node(node),
        Item::Splat(_) | Item::DoubleSplat(_) | Item::Label { .. } | Item::Pair { .. } => false,
    }
}

fn is_integer_node(node: &Node) -> bool
    ensures { result ≡ ruby.is_integer_node node.now }
{
    match &node.kind {
        NodeKind::Int(value) => is_passed(*value),
        _ => false,
    }
}

// Whether an integer has no sign and at most 18 digits.
fn is_passed(value: i128) -> bool
    ensures { result ≡ ruby.is_passed value }
{
    0 <= value && value < ABOVE_ALL
}
