ghost use Rattle.std.specs.Prelude.{◌≡◌, true, false, ℕ, ◌+◌, [], ◌∷◌, OnOk, IfOk, if◌then◌else◌};
ghost use Rattle.rbs_grammar.specs.Grammar.{read, begins, first, alt, eps};
ghost use Rattle.rbs_grammar.specs.Parts.{map_value, optional, both, any_of, separated, given, token, behind, before};
ghost use Rattle.rbs_grammar.specs.declared.stage.Stage.TheVariants as at;
ghost use Rattle.rbs_grammar.specs.Levels.{rooms, read_in};
ghost use Rattle.rbs_grammar.specs.Rules.{Rule, start};
ghost use Rattle.rbs_grammar.specs.Functions as spec;
ghost use Rattle.rbs_grammar.specs.Types.{a_function};
ghost use Rattle.rbs_lexer.specs.declared.kind.Kind.TheVariants as kind;
ghost use Rattle.rbs_parser.specs.Nests.{Nests};
ghost use Rattle.rbs_parser.specs.Reading.{Reads, ReadsIn, ReadsPlain};
ghost use Rattle.rbs_parser.specs.Parameters.{small_name, variable_name, given_as, ReadsParameter, added, both_of};
ghost use Rattle.rbs_parser.specs.declared.functions.Parameter.TheVariants as parameter;
ghost use Rattle.rbs_parser.specs.declared.refusal.Refusal.TheVariants as refusal;

use crate::gathered::Gathered;
use crate::lists::push;
use crate::types::{Types, begins_type};
use crate::{Cursor, Refusal, Set};
use rbs_grammar::{Parameters, Stage};
use rbs_lexer::{Kind, Token};
use rbs_tree::{BlockType, Keyword, MethodType, Param, Ty};
use src_text::{Boxed, Mem, Seq, Text};
use std::alloc::Global;

/// A parameter with the place that it was given in the list.
#[derive(Drop)]
pub enum Parameter {
    Required(Param),
    OptionalOne(Param),
    Rest(Param),
    Trailing(Param),
    Keyword(Keyword),
    RestKeywords(Param),
}

/// A keyword parameter; its name is not kept.
fn keyword_of(key: Text, required: bool, param: Param) -> Parameter
    ensures { result ≡ parameter.Keyword (record { key = key; required = required; ty = param.ty }) }
{
    let Param { ty, name: _ } = param;
    Parameter::Keyword(Keyword { key, required, ty })
}

/// The name of a positional parameter, if it has one.
#[tactic(auto)]
fn small_name(alloc: Global, cursor: &mut Cursor<'_>) -> Result<Option<Text>, Refusal>
    ensures { ReadsPlain small_name cursor.old result cursor.new }
{
    if !cursor.sees(Set::Small) {
        return Ok(None);
    }
    let name = cursor.expect(Set::Small)?;
    Ok(Some(Text::from_str(alloc, name.text())?))
}

/// Whether there is a `?`, which is then taken.
fn question(cursor: &mut Cursor<'_>) -> Result<bool, Refusal>
    ensures { ReadsPlain (given (token kind.Question)) cursor.old result cursor.new }
{
    if !cursor.sees(Set::One(Kind::Question)) {
        return Ok(false);
    }
    cursor.expect(Set::One(Kind::Question))?;
    Ok(true)
}

pub fn no_params(alloc: Global) -> Parameters
    ensures { result ≡ spec.no_params }
{
    Parameters {
        required: Seq::new(alloc),
        optional: Seq::new(alloc),
        rest: None,
        trailing: Seq::new(alloc),
        keywords: Seq::new(alloc),
        rest_keywords: None,
    }
}

/// One more parameter behind the others.
#[tactic(auto, unfolding(crate::specs::Parameters::added, crate::specs::Parameters::given_as))]
pub fn add(alloc: Global, all: &mut Parameters, next: Parameter) -> Mem<()>
    ensures { OnOk result (all.new ≡ added all.old (given_as next)) }
{
    match next {
        Parameter::Required(param) => push(alloc, &mut all.required, param)?,
        Parameter::OptionalOne(param) => push(alloc, &mut all.optional, param)?,
        Parameter::Rest(param) => {
            if all.rest.is_none() {
                all.rest = Some(param);
            }
        }
        Parameter::Trailing(param) => push(alloc, &mut all.trailing, param)?,
        Parameter::Keyword(keyword) => push(alloc, &mut all.keywords, keyword)?,
        Parameter::RestKeywords(param) => {
            if all.rest_keywords.is_none() {
                all.rest_keywords = Some(param);
            }
        }
    }
    Ok(())
}

/// The parameters with one more behind them.
fn with_param(alloc: Global, mut all: Gathered, next: Parameter) -> Mem<Gathered>
    ensures { IfOk result (λ r. r ≡ added all (given_as next)) }
{
    let put = all.add(alloc, next);
    match put {
        Ok(()) => Ok(all),
        Err(full) => {
            discard(all);
            Err(full)
        }
    }
}

/// The parameters of a list that begins with this one.
fn some_param(alloc: Global, first: Parameter) -> Mem<Gathered>
    ensures { IfOk result (λ r. r ≡ added spec.no_params (given_as first)) }
{
    match Gathered::none(alloc) {
        Ok(none) => with_param(alloc, none, first),
        Err(full) => {
            discard(first);
            Err(full)
        }
    }
}

/// Lets a value go.
fn discard<T: Drop>(_: T) {}

/// What is held with what was read behind it. Where that was refused, both are.
fn both<A: Drop, B>(held: A, next: Result<B, Refusal>) -> Result<(A, B), Refusal>
    ensures { result ≡ both_of held next }
{
    match next {
        Ok(found) => Ok((held, found)),
        Err(refusal) => Err(refusal),
    }
}

/// Whether a list of parameters goes on at a stage.
#[tactic(auto, using(crate::proofs::Keys::begins_none))]
fn leads(cursor: &Cursor<'_>, stage: Stage) -> bool
    ensures { result ≡ begins (spec.params_lead stage) cursor.now }
{
    match stage {
        Stage::Done => false,
        _ => cursor.sees(Set::One(Kind::Comma)),
    }
}

/// Whether a list of parameters begins at the next token.
#[tactic(auto, unfolding(rbs_grammar::specs::Functions::params, rbs_grammar::specs::Functions::first_params, rbs_grammar::specs::Functions::param, rbs_grammar::specs::Types::a_type))]
fn begins_params(cursor: &Cursor<'_>) -> bool
    ensures { result ≡ begins (first spec.params) cursor.now }
{
    match cursor.kind() {
        Some(Kind::StarStar | Kind::Star | Kind::Question) => true,
        _ => begins_type(cursor),
    }
}

/// Whether a block begins at the next token.
#[tactic(auto, unfolding(rbs_grammar::specs::Functions::block))]
fn begins_block(cursor: &Cursor<'_>) -> bool
    ensures { result ≡ begins (first spec.block) cursor.now }
{
    match cursor.kind() {
        Some(Kind::Question | Kind::LeftBrace) => true,
        _ => false,
    }
}

/// A function of these parameters, with its block and its result.
fn function_of(
    alloc: Global,
    all: Parameters,
    block: Option<Boxed<BlockType>>,
    answer: Ty,
) -> MethodType
    ensures { result ≡ spec.function_of all (block, answer) }
{
    let Parameters {
        required,
        optional,
        rest,
        trailing,
        keywords,
        rest_keywords,
    } = all;
    MethodType {
        vars: Seq::new(alloc),
        required,
        optional,
        rest,
        trailing,
        keywords,
        rest_keywords,
        block,
        result: answer,
    }
}

impl<
    T: Fn(Global, &mut Cursor<'_>, usize, usize) -> Result<Ty, Refusal>,
    F: Fn(Global, &mut Cursor<'_>, usize, usize) -> Result<MethodType, Refusal>,
> Types<T, F> {
    #[tactic(auto, unfolding(rbs_grammar::specs::Functions::param))]
    fn param(&self, cursor: &mut Cursor<'_>) -> Result<Param, Refusal>
        requires { Nests Rule.ty self.now.marked self.now.functions (T.pre self.now.ty) (T.post self.now.ty) }
        ensures { ReadsIn self.now.marked self.now.functions spec.param cursor.old result cursor.new }
    {
        let ty = self.a_type(cursor)?;
        let name = small_name(self.alloc, cursor)?;
        Ok(Param { ty, name })
    }

    #[tactic(auto, unfolding(crate::specs::Parameters::given_as))]
    fn key_param(
        &self,
        cursor: &mut Cursor<'_>,
        required: bool,
    ) -> Result<(Parameter, Stage), Refusal>
        requires { Nests Rule.ty self.now.marked self.now.functions (T.pre self.now.ty) (T.post self.now.ty) }
        ensures { ReadsParameter self.now.marked self.now.functions (spec.key_param required) cursor.old result cursor.new }
    {
        let word = cursor.expect(Set::Word)?;
        cursor.expect(Set::One(Kind::Colon))?;
        let param = self.param(cursor)?;
        let key = Text::from_str(self.alloc, word.text())?;
        Ok((keyword_of(key, required, param), Stage::Keyword))
    }

    #[tactic(auto, using(crate::proofs::Keys::positional_read), unfolding(crate::specs::Parameters::given_as))]
    fn required_param(&self, cursor: &mut Cursor<'_>) -> Result<(Parameter, Stage), Refusal>
        requires { Nests Rule.ty self.now.marked self.now.functions (T.pre self.now.ty) (T.post self.now.ty) }
        ensures { ReadsParameter self.now.marked self.now.functions (spec.positional_param spec.required at.Open) cursor.old result cursor.new }
    {
        if cursor.sees_two(Set::Word, Set::One(Kind::Colon)) {
            return self.key_param(cursor, true);
        }
        let param = self.param(cursor)?;
        Ok((Parameter::Required(param), Stage::Open))
    }

    #[tactic(auto, using(crate::proofs::Keys::positional_read), unfolding(crate::specs::Parameters::given_as))]
    fn trailing_param(&self, cursor: &mut Cursor<'_>) -> Result<(Parameter, Stage), Refusal>
        requires { Nests Rule.ty self.now.marked self.now.functions (T.pre self.now.ty) (T.post self.now.ty) }
        ensures { ReadsParameter self.now.marked self.now.functions (spec.positional_param spec.trailing at.Trailing) cursor.old result cursor.new }
    {
        if cursor.sees_two(Set::Word, Set::One(Kind::Colon)) {
            return self.key_param(cursor, true);
        }
        let param = self.param(cursor)?;
        Ok((Parameter::Trailing(param), Stage::Trailing))
    }

    #[tactic(auto, using(crate::proofs::Keys::positional_read), unfolding(crate::specs::Parameters::given_as))]
    fn optional_key_or_param(&self, cursor: &mut Cursor<'_>) -> Result<(Parameter, Stage), Refusal>
        requires { Nests Rule.ty self.now.marked self.now.functions (T.pre self.now.ty) (T.post self.now.ty) }
        ensures { ReadsParameter self.now.marked self.now.functions (spec.key_or false (map_value (spec.placed spec.optional_one at.Optional) spec.param)) cursor.old result cursor.new }
    {
        if cursor.sees_two(Set::Word, Set::One(Kind::Colon)) {
            return self.key_param(cursor, false);
        }
        let param = self.param(cursor)?;
        Ok((Parameter::OptionalOne(param), Stage::Optional))
    }

    fn optional_param(&self, cursor: &mut Cursor<'_>) -> Result<(Parameter, Stage), Refusal>
        requires { Nests Rule.ty self.now.marked self.now.functions (T.pre self.now.ty) (T.post self.now.ty) }
        ensures { ReadsParameter self.now.marked self.now.functions spec.optional_param cursor.old result cursor.new }
    {
        cursor.expect(Set::One(Kind::Question))?;
        self.optional_key_or_param(cursor)
    }

    fn optional_keyword(&self, cursor: &mut Cursor<'_>) -> Result<(Parameter, Stage), Refusal>
        requires { Nests Rule.ty self.now.marked self.now.functions (T.pre self.now.ty) (T.post self.now.ty) }
        ensures { ReadsParameter self.now.marked self.now.functions spec.optional_keyword cursor.old result cursor.new }
    {
        cursor.expect(Set::One(Kind::Question))?;
        self.key_param(cursor, false)
    }

    #[tactic(auto, unfolding(crate::specs::Parameters::given_as))]
    fn rest_param(&self, cursor: &mut Cursor<'_>) -> Result<(Parameter, Stage), Refusal>
        requires { Nests Rule.ty self.now.marked self.now.functions (T.pre self.now.ty) (T.post self.now.ty) }
        ensures { ReadsParameter self.now.marked self.now.functions spec.rest_param cursor.old result cursor.new }
    {
        cursor.expect(Set::One(Kind::Star))?;
        let param = self.param(cursor)?;
        Ok((Parameter::Rest(param), Stage::Trailing))
    }

    #[tactic(auto, unfolding(crate::specs::Parameters::given_as))]
    fn rest_keywords_param(&self, cursor: &mut Cursor<'_>) -> Result<(Parameter, Stage), Refusal>
        requires { Nests Rule.ty self.now.marked self.now.functions (T.pre self.now.ty) (T.post self.now.ty) }
        ensures { ReadsParameter self.now.marked self.now.functions spec.rest_keywords_param cursor.old result cursor.new }
    {
        cursor.expect(Set::One(Kind::StarStar))?;
        let param = self.param(cursor)?;
        Ok((Parameter::RestKeywords(param), Stage::Done))
    }

    #[tactic(auto, unfolding(rbs_grammar::specs::Functions::first_params))]
    fn first_param(&self, cursor: &mut Cursor<'_>) -> Result<(Parameter, Stage), Refusal>
        requires { Nests Rule.ty self.now.marked self.now.functions (T.pre self.now.ty) (T.post self.now.ty) }
        ensures { ReadsParameter self.now.marked self.now.functions spec.first_params cursor.old result cursor.new }
    {
        if cursor.sees(Set::One(Kind::StarStar)) {
            self.rest_keywords_param(cursor)
        } else if cursor.sees(Set::One(Kind::Star)) {
            self.rest_param(cursor)
        } else if cursor.sees(Set::One(Kind::Question)) {
            self.optional_param(cursor)
        } else {
            self.required_param(cursor)
        }
    }

    #[tactic(auto, unfolding(rbs_grammar::specs::Functions::optional_params))]
    fn param_behind_optional(&self, cursor: &mut Cursor<'_>) -> Result<(Parameter, Stage), Refusal>
        requires { Nests Rule.ty self.now.marked self.now.functions (T.pre self.now.ty) (T.post self.now.ty) }
        ensures { ReadsParameter self.now.marked self.now.functions spec.optional_params cursor.old result cursor.new }
    {
        if cursor.sees(Set::One(Kind::StarStar)) {
            self.rest_keywords_param(cursor)
        } else if cursor.sees(Set::One(Kind::Star)) {
            self.rest_param(cursor)
        } else if cursor.sees(Set::One(Kind::Question)) {
            self.optional_param(cursor)
        } else {
            self.trailing_param(cursor)
        }
    }

    #[tactic(auto, unfolding(rbs_grammar::specs::Functions::trailing_params))]
    fn param_behind_rest(&self, cursor: &mut Cursor<'_>) -> Result<(Parameter, Stage), Refusal>
        requires { Nests Rule.ty self.now.marked self.now.functions (T.pre self.now.ty) (T.post self.now.ty) }
        ensures { ReadsParameter self.now.marked self.now.functions spec.trailing_params cursor.old result cursor.new }
    {
        if cursor.sees(Set::One(Kind::StarStar)) {
            self.rest_keywords_param(cursor)
        } else if cursor.sees(Set::One(Kind::Question)) {
            self.optional_keyword(cursor)
        } else {
            self.trailing_param(cursor)
        }
    }

    #[tactic(auto, unfolding(rbs_grammar::specs::Functions::keyword_params))]
    fn param_behind_keyword(&self, cursor: &mut Cursor<'_>) -> Result<(Parameter, Stage), Refusal>
        requires { Nests Rule.ty self.now.marked self.now.functions (T.pre self.now.ty) (T.post self.now.ty) }
        ensures { ReadsParameter self.now.marked self.now.functions spec.keyword_params cursor.old result cursor.new }
    {
        if cursor.sees(Set::One(Kind::StarStar)) {
            self.rest_keywords_param(cursor)
        } else if cursor.sees(Set::One(Kind::Question)) {
            self.optional_keyword(cursor)
        } else {
            self.key_param(cursor, true)
        }
    }

    fn param_at(&self, cursor: &mut Cursor<'_>, stage: Stage) -> Result<(Parameter, Stage), Refusal>
        requires { Nests Rule.ty self.now.marked self.now.functions (T.pre self.now.ty) (T.post self.now.ty) }
        ensures { ReadsParameter self.now.marked self.now.functions (spec.params_at stage) cursor.old result cursor.new }
    {
        match stage {
            Stage::Open => self.first_param(cursor),
            Stage::Optional => self.param_behind_optional(cursor),
            Stage::Trailing => self.param_behind_rest(cursor),
            Stage::Keyword | Stage::Done => self.param_behind_keyword(cursor),
        }
    }

    fn next_param(
        &self,
        cursor: &mut Cursor<'_>,
        stage: Stage,
    ) -> Result<(Parameter, Stage), Refusal>
        requires { Nests Rule.ty self.now.marked self.now.functions (T.pre self.now.ty) (T.post self.now.ty) }
        ensures { ReadsParameter self.now.marked self.now.functions (spec.next_param stage) cursor.old result cursor.new }
    {
        cursor.expect(Set::One(Kind::Comma))?;
        self.param_at(cursor, stage)
    }

    fn params(&self, cursor: &mut Cursor<'_>) -> Result<Gathered, Refusal>
        requires { Nests Rule.ty self.now.marked self.now.functions (T.pre self.now.ty) (T.post self.now.ty) }
        ensures { ReadsIn self.now.marked self.now.functions spec.params cursor.old result cursor.new }
    {
        let (first, start) = self.first_param(cursor)?;
        let mut all = some_param(self.alloc, first)?;
        let mut stage = start;
        'items: while leads(cursor, stage) {
            let found = self.next_param(cursor, stage);
            let (held, (next, behind)) = both(all, found)?;
            all = with_param(self.alloc, held, next)?;
            stage = behind;
        }
        Ok(all)
    }

    fn some_params(&self, cursor: &mut Cursor<'_>) -> Result<Gathered, Refusal>
        requires { Nests Rule.ty self.now.marked self.now.functions (T.pre self.now.ty) (T.post self.now.ty) }
        ensures { ReadsIn self.now.marked self.now.functions (alt spec.params (eps spec.no_params)) cursor.old result cursor.new }
    {
        if begins_params(cursor) {
            self.params(cursor)
        } else {
            Ok(Gathered::none(self.alloc)?)
        }
    }

    #[tactic(auto, unfolding(rbs_grammar::specs::Functions::param_list))]
    fn param_list(&self, cursor: &mut Cursor<'_>) -> Result<Gathered, Refusal>
        requires { Nests Rule.ty self.now.marked self.now.functions (T.pre self.now.ty) (T.post self.now.ty) }
        ensures { ReadsIn self.now.marked self.now.functions spec.param_list cursor.old result cursor.new }
    {
        if !cursor.sees(Set::One(Kind::LeftParen)) {
            return Ok(Gathered::none(self.alloc)?);
        }
        cursor.expect(Set::One(Kind::LeftParen))?;
        let found = self.some_params(cursor)?;
        let close = cursor.expect(Set::One(Kind::RightParen));
        let (found, _) = both(found, close)?;
        Ok(found)
    }

    #[tactic(auto, unfolding(rbs_grammar::specs::Functions::result))]
    fn result(&self, cursor: &mut Cursor<'_>) -> Result<Ty, Refusal>
        requires types { Nests Rule.ty self.now.marked self.now.functions (T.pre self.now.ty) (T.post self.now.ty) }
        requires functions { Nests Rule.function self.now.marked self.now.functions (F.pre self.now.function) (F.post self.now.function) }
        ensures { ReadsIn self.now.marked self.now.functions spec.result cursor.old result cursor.new }
    {
        cursor.expect(Set::One(Kind::Arrow))?;
        self.opt(cursor)
    }

    fn params_and_result(&self, cursor: &mut Cursor<'_>) -> Result<(Gathered, Ty), Refusal>
        requires types { Nests Rule.ty self.now.marked self.now.functions (T.pre self.now.ty) (T.post self.now.ty) }
        requires functions { Nests Rule.function self.now.marked self.now.functions (F.pre self.now.function) (F.post self.now.function) }
        ensures { ReadsIn self.now.marked self.now.functions (both spec.param_list spec.result) cursor.old result cursor.new }
    {
        let found = self.param_list(cursor)?;
        let result = self.result(cursor);
        both(found, result)
    }

    fn block_and_result(
        &self,
        cursor: &mut Cursor<'_>,
    ) -> Result<(Option<Boxed<BlockType>>, Ty), Refusal>
        requires types { Nests Rule.ty self.now.marked self.now.functions (T.pre self.now.ty) (T.post self.now.ty) }
        requires functions { Nests Rule.function self.now.marked self.now.functions (F.pre self.now.function) (F.post self.now.function) }
        ensures { ReadsIn self.now.marked self.now.functions (both (optional spec.block) spec.result) cursor.old result cursor.new }
    {
        let block = self.some_block(cursor)?;
        let result = self.result(cursor);
        both(block, result)
    }

    fn in_braces(&self, cursor: &mut Cursor<'_>) -> Result<(Gathered, Ty), Refusal>
        requires types { Nests Rule.ty self.now.marked self.now.functions (T.pre self.now.ty) (T.post self.now.ty) }
        requires functions { Nests Rule.function self.now.marked self.now.functions (F.pre self.now.function) (F.post self.now.function) }
        ensures { ReadsIn self.now.marked self.now.functions (behind kind.LeftBrace (before (both spec.param_list spec.result) kind.RightBrace)) cursor.old result cursor.new }
    {
        cursor.expect(Set::One(Kind::LeftBrace))?;
        let found = self.params_and_result(cursor)?;
        let close = cursor.expect(Set::One(Kind::RightBrace));
        let (found, _) = both(found, close)?;
        Ok(found)
    }

    #[tactic(auto, unfolding(rbs_grammar::specs::Functions::block))]
    fn block(&self, cursor: &mut Cursor<'_>) -> Result<BlockType, Refusal>
        requires types { Nests Rule.ty self.now.marked self.now.functions (T.pre self.now.ty) (T.post self.now.ty) }
        requires functions { Nests Rule.function self.now.marked self.now.functions (F.pre self.now.function) (F.post self.now.function) }
        ensures { ReadsIn self.now.marked self.now.functions spec.block cursor.old result cursor.new }
    {
        let optional_block = question(cursor)?;
        let (all, result) = self.in_braces(cursor)?;
        Ok(BlockType {
            required: !optional_block,
            fun: function_of(self.alloc, all.into_parameters(), None, result),
        })
    }

    fn some_block(&self, cursor: &mut Cursor<'_>) -> Result<Option<Boxed<BlockType>>, Refusal>
        requires types { Nests Rule.ty self.now.marked self.now.functions (T.pre self.now.ty) (T.post self.now.ty) }
        requires functions { Nests Rule.function self.now.marked self.now.functions (F.pre self.now.function) (F.post self.now.function) }
        ensures { ReadsIn self.now.marked self.now.functions (optional spec.block) cursor.old result cursor.new }
    {
        if begins_block(cursor) {
            let block = self.block(cursor)?;
            Ok(Some(Boxed::new(self.alloc, block)?))
        } else {
            Ok(None)
        }
    }

    #[tactic(auto, unfolding(rbs_grammar::specs::Functions::function))]
    fn function_body(&self, cursor: &mut Cursor<'_>) -> Result<MethodType, Refusal>
        requires types { Nests Rule.ty self.now.marked self.now.functions (T.pre self.now.ty) (T.post self.now.ty) }
        requires functions { Nests Rule.function self.now.marked self.now.functions (F.pre self.now.function) (F.post self.now.function) }
        ensures { ReadsIn self.now.marked self.now.functions spec.function cursor.old result cursor.new }
    {
        let found = self.param_list(cursor)?;
        let end = self.block_and_result(cursor);
        let (all, (block, result)) = both(found, end)?;
        Ok(function_of(self.alloc, all.into_parameters(), block, result))
    }
}

/// Whether a function begins at the next token.
fn begins_function(cursor: &Cursor<'_>) -> bool
    ensures { result ≡ begins (start Rule.function) cursor.now }
{
    match cursor.kind() {
        Some(Kind::LeftParen | Kind::Question | Kind::LeftBrace | Kind::Arrow) => true,
        _ => false,
    }
}

/// Why a rule is not read where no more rules may be opened, by whether it begins at the next token.
fn no_room(begins: bool) -> Refusal
    ensures { result ≡ if begins then refusal.TooDeep else refusal.Syntax }
{
    if begins {
        Refusal::TooDeep
    } else {
        Refusal::Syntax
    }
}

/// A type, where so many marked rules and so many functions may still be opened.
#[cycle(opened)]
pub fn ty(
    alloc: Global,
    cursor: &mut Cursor<'_>,
    marked: usize,
    functions: usize,
) -> Result<Ty, Refusal>
    ensures { Reads (λ x. x) (read_in (rooms marked functions) Rule.ty cursor.old) result cursor.new }
{
    if marked == 0 {
        return Err(no_room(begins_type(cursor)));
    }
    Types {
        alloc,
        marked: marked - 1,
        functions,
        ty,
        function,
    }
    .union(cursor)
}

/// A function without variables, where so many marked rules and so many functions may still be opened.
#[cycle(opened)]
pub fn function(
    alloc: Global,
    cursor: &mut Cursor<'_>,
    marked: usize,
    functions: usize,
) -> Result<MethodType, Refusal>
    ensures { Reads (λ x. x) (read_in (rooms marked functions) Rule.function cursor.old) result cursor.new }
{
    if functions == 0 {
        return Err(no_room(begins_function(cursor)));
    }
    Types {
        alloc,
        marked,
        functions: functions - 1,
        ty,
        function,
    }
    .function_body(cursor)
}

fn variable_name(alloc: Global, cursor: &mut Cursor<'_>) -> Result<Text, Refusal>
    ensures { ReadsPlain variable_name cursor.old result cursor.new }
{
    let name = cursor.expect(Set::One(Kind::Constant))?;
    Ok(Text::from_str(alloc, name.text())?)
}

fn variable_names(alloc: Global, cursor: &mut Cursor<'_>) -> Result<Seq<Text>, Refusal>
    ensures { ReadsPlain (separated kind.Comma variable_name) cursor.old result cursor.new }
{
    let mut all = Seq::new(alloc);
    let first = variable_name(alloc, cursor)?;
    push(alloc, &mut all, first)?;
    'items: while cursor.eat(Set::One(Kind::Comma)) {
        let next = variable_name(alloc, cursor)?;
        all.push(next)?;
    }
    Ok(all)
}

/// The type variables of a method type, in brackets.
#[tactic(auto, unfolding(rbs_grammar::specs::Functions::variables))]
pub fn variables(alloc: Global, cursor: &mut Cursor<'_>) -> Result<Seq<Text>, Refusal>
    ensures { ReadsPlain spec.variables cursor.old result cursor.new }
{
    cursor.expect(Set::One(Kind::LeftBracket))?;
    let found = variable_names(alloc, cursor)?;
    cursor.expect(Set::One(Kind::RightBracket))?;
    Ok(found)
}

#[tactic(auto, unfolding(rbs_grammar::specs::Functions::variables))]
fn some_variables(alloc: Global, cursor: &mut Cursor<'_>) -> Result<Seq<Text>, Refusal>
    ensures { ReadsPlain (any_of spec.variables) cursor.old result cursor.new }
{
    if cursor.sees(Set::One(Kind::LeftBracket)) {
        variables(alloc, cursor)
    } else {
        Ok(Seq::new(alloc))
    }
}

/// A function inside a method type.
#[tactic(auto, using(crate::proofs::Same::same_read), unfolding(rbs_grammar::specs::Types::a_function))]
fn opened_function(
    alloc: Global,
    cursor: &mut Cursor<'_>,
    marked: usize,
    functions: usize,
) -> Result<MethodType, Refusal>
    ensures { ReadsIn marked functions a_function cursor.old result cursor.new }
{
    function(alloc, cursor, marked, functions)
}

/// The function with these type variables.
fn with_variables(variables: Seq<Text>, mut fun: MethodType) -> MethodType
    ensures { result ≡ spec.with_variables variables fun }
{
    fun.vars = variables;
    fun
}

/// A method type, where so many marked rules and so many functions may still be opened.
#[tactic(auto, using(crate::proofs::Variables::variables_anywhere), unfolding(rbs_grammar::specs::Functions::method_type))]
pub fn method_type(
    alloc: Global,
    cursor: &mut Cursor<'_>,
    marked: usize,
    functions: usize,
) -> Result<MethodType, Refusal>
    ensures { ReadsIn marked functions spec.method_type cursor.old result cursor.new }
{
    let variables = some_variables(alloc, cursor)?;
    let fun = opened_function(alloc, cursor, marked, functions)?;
    Ok(with_variables(variables, fun))
}
