ghost use Rattle.std.specs.Prelude.{◌≡◌, [], ◌∷◌, map};
ghost use Rattle.std.specs.Option.{option_map};
ghost use Rattle.sig_rules.specs.Instances.{is_in, in_row, if_there, variables, method_variables};
ghost use Rattle.type_instances.specs.Variables.{field_variables, param_variables, keyword_variables, block_variables};

use rbs_tree::{BlockType, Field, Keyword, MethodType, Param, Ty};
use src_text::{Boxed, Text};

/// Whether a word is among others.
pub fn is_among(words: &[Text], word: &Text) -> bool
    ensures { result ≡ is_in words.now word.now }
{
    for other in words {
        if word == other {
            return true;
        }
    }
    false
}

/// Whether a word is the name of a variable that stands in a type.
#[cycle(variables)]
pub fn stands_in(ty: &Ty, word: &Text) -> bool
    ensures { result ≡ is_in (variables ty.now) word.now }
{
    match ty {
        Ty::Instance(_, args) => stands_in_some(args.as_slice(), word),
        Ty::Interface(_, args) => stands_in_some(args.as_slice(), word),
        Ty::Alias(_, args) => stands_in_some(args.as_slice(), word),
        Ty::Var(name) => is_word(name, word),
        Ty::Union(parts) => stands_in_some(parts.as_slice(), word),
        Ty::Inter(parts) => stands_in_some(parts.as_slice(), word),
        Ty::Optional(part) => stands_in(part.get(), word),
        Ty::TupleOf(parts) => stands_in_some(parts.as_slice(), word),
        Ty::RecordOf(fields) => stands_in_fields(fields.as_slice(), word),
        Ty::ProcOf(fun) => stands_in_method(fun.get(), word),
        _ => false,
    }
}

/// Whether a word is the name of a variable that stands in one of these types.
#[cycle(variables)]
pub fn stands_in_some(tys: &[Ty], word: &Text) -> bool
    ensures { result ≡ is_in (in_row (map variables tys.now)) word.now }
{
    for ty in tys {
        if stands_in(ty, word) {
            return true;
        }
    }
    false
}

// Whether a word is the name of a variable that stands in one of these fields.
#[cycle(variables)]
fn stands_in_fields(fields: &[Field], word: &Text) -> bool
    ensures { result ≡ is_in (in_row (map field_variables fields.now)) word.now }
{
    for field in fields {
        if stands_in(&field.ty, word) {
            return true;
        }
    }
    false
}

/// Whether a word is the name of a variable that stands in a method type, be it its own or not.
#[cycle(variables)]
pub fn stands_in_method(method: &MethodType, word: &Text) -> bool
    ensures { result ≡ is_in (method_variables method.now) word.now }
{
    stands_in_params(method.required.as_slice(), word)
        || stands_in_params(method.optional.as_slice(), word)
        || stands_in_rest(&method.rest, word)
        || stands_in_params(method.trailing.as_slice(), word)
        || stands_in_keywords(method.keywords.as_slice(), word)
        || stands_in_rest(&method.rest_keywords, word)
        || stands_in_block(&method.block, word)
        || stands_in(&method.result, word)
}

// Whether a word is the name of a variable that stands in one of these parameters.
#[cycle(variables)]
fn stands_in_params(params: &[Param], word: &Text) -> bool
    ensures { result ≡ is_in (in_row (map param_variables params.now)) word.now }
{
    for param in params {
        if stands_in(&param.ty, word) {
            return true;
        }
    }
    false
}

// Whether a word is the name of a variable that stands in a parameter, if there is one.
#[cycle(variables)]
fn stands_in_rest(rest: &Option<Param>, word: &Text) -> bool
    ensures { result ≡ is_in (if_there (option_map param_variables rest.now)) word.now }
{
    match rest {
        None => false,
        Some(param) => stands_in(&param.ty, word),
    }
}

// Whether a word is the name of a variable that stands in one of these keywords.
#[cycle(variables)]
fn stands_in_keywords(keywords: &[Keyword], word: &Text) -> bool
    ensures { result ≡ is_in (in_row (map keyword_variables keywords.now)) word.now }
{
    for keyword in keywords {
        if stands_in(&keyword.ty, word) {
            return true;
        }
    }
    false
}

// Whether a word is the name of a variable that stands in a block, if there is one.
#[cycle(variables)]
fn stands_in_block(block: &Option<Boxed<BlockType>>, word: &Text) -> bool
    ensures { result ≡ is_in (if_there (option_map block_variables block.now)) word.now }
{
    match block {
        None => false,
        Some(block) => stands_in_method(&block.get().fun, word),
    }
}

// Whether a variable's name is a word.
fn is_word(name: &Text, word: &Text) -> bool
    ensures { result ≡ is_in (name.now ∷ []) word.now }
{
    word == name
}
