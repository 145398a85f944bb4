ghost use Rattle.std.specs.Prelude.{◌≡◌, ◌≤◌, ◌<◌, ◌+◌, ◌^◌, length, drop, if◌then◌else◌, Some, None, IfSome};
ghost use Rattle.ruby_lexer.specs.declared.kind.RubyKind.TheVariants as k;
ghost use Rattle.ruby_lexer.specs.declared.kind.Sign.TheVariants as sign;
ghost use Rattle.ruby_lexer.specs.declared.signs.Meaning.TheVariants as meaning;
ghost use Rattle.ruby_lexer.specs.Signs as signs;
ghost use Rattle.ruby_lexer.specs.Strings as strings;
ghost use Rattle.ruby_lexer.specs.Machine as spec;
ghost use Rattle.ruby_lexer.specs.Answers.{Steps};

use crate::characters::{begins, begins_with_digit, behind, character_len};
use crate::heredocs::{Opening, body_start, opening_here};
use crate::kind::{RubyKind, Sign};
use crate::kinds::{ends_value, is_class_word, is_dots, precedes_parameter};
use crate::machine::Machine;
use crate::numbers::number_here;
use crate::placing::{here, no_token, text_value, token};
use crate::refusal::{Form, RubyAt};
use crate::signs::{Found, Meaning, is_prefix, sign_here};
use crate::state::{Heredoc, Opened, Quotes, State, Words};
use crate::strings::{closing_here, words_of};
use crate::token::{RubyValue, WordsOf};
use std::alloc::Global;

// Whether `...` stands before, behind `(` or `,`.
fn is_forwarding(state: State) -> bool
    ensures { result ≡ spec.is_forwarding state }
{
    is_dots(state.last) && precedes_parameter(state.before)
}

// The heredoc of an opening whose `<<` is here, and whose body begins there.
fn heredoc_of(state: State, opening: Opening, body: u32) -> Heredoc
    requires fits { state.place + 2 + opening.len < 2 ^ 32 }
    requires ordered { (opening.word_start ≤ opening.word_end) × (opening.word_end ≤ opening.len) }
    ensures { result ≡ spec.heredoc_of state opening body }
{
    let word = state.place + 2;
    Heredoc {
        at: here(state),
        word_start: word + opening.word_start,
        word_end: word + opening.word_end,
        plain: opening.plain,
        behind: (word + opening.len) as u32,
        body,
    }
}

// Before the body of a heredoc.
fn at_body(state: State, body: usize) -> State
    requires { body < 2 ^ 32 }
    ensures { result ≡ record state { place = body; bodies_end = None; part_start = body } }
{
    State {
        place: body,
        bodies_end: None,
        part_start: body as u32,
        ..state
    }
}

// What closes the bracket that is behind the first byte.
fn closing_behind(text: &[u8]) -> Option<u8>
    ensures value { result ≡ strings.closing_here (drop 1 text.now) }
    ensures within { IfSome result (λ c. 2 ≤ length text.now) }
{
    if text.len() < 2 {
        None
    } else {
        closing_here(behind(text, 1))
    }
}

// What a `}` is, by whether it is a sign.
fn brace_kind(plain: bool) -> RubyKind
    ensures { result ≡ (if plain then k.Sign sign.RightBrace else k.CodeClose) }
{
    if plain {
        RubyKind::Sign(Sign::RightBrace)
    } else {
        RubyKind::CodeClose
    }
}

impl Machine {
    // A `}`: it closes the brace or the code.
    fn closes_brace(&mut self) -> Result<(), RubyAt>
        requires { self.old.state.place + 1 < 2 ^ 32 }
        ensures { Steps (spec.closes_brace self.old) result self.new }
    {
        let kind = brace_kind(self.stack.is_plain_brace());
        self.stack.pop();
        self.puts_kind(kind, 1)
    }

    // A `)`.
    fn closes_paren(&mut self) -> Result<(), RubyAt>
        requires { self.old.state.place + 1 < 2 ^ 32 }
        ensures { Steps (spec.closes_paren self.old) result self.new }
    {
        if is_forwarding(self.state) {
            return Err(RubyAt::Unsupported(self.state.last_span, Form::Forwarding));
        }
        self.puts_kind(RubyKind::Sign(Sign::RightParen), 1)
    }

    // A `{` of either form.
    fn opens_brace(&mut self, kind: RubyKind) -> Result<(), RubyAt>
        requires { self.old.state.place + 1 < 2 ^ 32 }
        ensures { Steps (spec.opens_brace self.old kind) result self.new }
    {
        let brace = token(self.state, kind, RubyValue::Absent, 1);
        self.opens(brace, Opened::Brace)
    }

    // A sign of so many bytes that isn't in prefix form.
    #[tactic(auto, unfolding(crate::specs::Machine::plain_sign))]
    fn plain_sign(&mut self, sign: Sign, len: usize) -> Result<(), RubyAt>
        requires some { 0 < len }
        requires fits { self.old.state.place + len < 2 ^ 32 }
        ensures { Steps (spec.plain_sign self.old sign len) result self.new }
    {
        match sign {
            Sign::RightBrace => self.closes_brace(),
            Sign::LeftBrace => self.opens_brace(RubyKind::Sign(Sign::LeftBrace)),
            Sign::RightParen => self.closes_paren(),
            _ => self.puts_kind(RubyKind::Sign(sign), len),
        }
    }

    // No token stands here, whose character has so many bytes.
    fn fails_here(&mut self, len: usize) -> Result<(), RubyAt>
        requires { self.old.state.place + len < 2 ^ 32 }
        ensures { Steps (spec.fails_here self.old len) result self.new }
    {
        Err(no_token(self.state.place, len))
    }

    // A word list whose `%` is here.
    fn opens_words(&mut self, words: Option<WordsOf>, closer: Option<u8>) -> Result<(), RubyAt>
        requires here { self.old.state.place + 1 < 2 ^ 32 }
        requires fits { IfSome closer (λ c. self.old.state.place + 3 < 2 ^ 32) }
        ensures { Steps (spec.opens_words self.old words closer) result self.new }
    {
        match (words, closer) {
            (Some(words), Some(closer)) => {
                let opening = token(self.state, RubyKind::WordsOpen, RubyValue::Words(words), 3);
                let at = here(self.state);
                self.opens(opening, Opened::Words(Words { closer, at }))
            }
            _ => self.fails_here(1),
        }
    }

    // The opening of a heredoc whose body begins there.
    fn opens_heredoc(&mut self, opening: Opening, body: Option<usize>) -> Result<(), RubyAt>
        requires fits { self.old.state.place + 2 + opening.len < 2 ^ 32 }
        requires ordered { (opening.word_start ≤ opening.word_end) × (opening.word_end ≤ opening.len) }
        ensures { Steps (spec.opens_heredoc self.old opening body) result self.new }
    {
        match body {
            Some(body) => self.opens_body(opening, body),
            None => self.fails_here(1),
        }
    }

    // The opening of a heredoc: its body comes next. A place past 32 bits is answered as out of memory; none in a text is.
    fn opens_body(&mut self, opening: Opening, body: usize) -> Result<(), RubyAt>
        requires fits { self.old.state.place + 2 + opening.len < 2 ^ 32 }
        requires ordered { (opening.word_start ≤ opening.word_end) × (opening.word_end ≤ opening.len) }
        ensures { Steps (spec.opens_heredoc self.old opening (Some body)) result self.new }
    {
        if body > 0xffff_ffff {
            return Err(RubyAt::NoMemory);
        }
        let found = token(
            self.state,
            RubyKind::HeredocOpen,
            RubyValue::Absent,
            2 + opening.len,
        );
        self.stack.push(Opened::Heredoc(heredoc_of(self.state, opening, body as u32)))?;
        self.puts(found)?;
        self.state = at_body(self.state, body);
        Ok(())
    }

    // A `<<` in prefix form, by what it opens.
    fn less_less(&mut self, text: &[u8], opening: Option<Opening>) -> Result<(), RubyAt>
        requires ordered { IfSome opening (λ o. (o.word_start ≤ o.word_end) × (o.word_end ≤ o.len)) }
        requires within { IfSome opening (λ o. self.old.state.place + 2 + o.len ≤ length text.now) }
        requires here { self.old.state.place + 2 ≤ length text.now }
        requires size { length text.now < 2 ^ 32 }
        ensures { Steps (spec.less_less text.now self.old opening) result self.new }
    {
        match opening {
            None => self.puts_kind(RubyKind::Prefix(Sign::LessLess), 2),
            Some(opening) => {
                if is_class_word(self.state.last) {
                    return self.puts_kind(RubyKind::Prefix(Sign::LessLess), 2);
                }
                let behind = self.state.place + 2 + opening.len;
                let body = body_start(text, self.state.bodies_end, behind);
                self.opens_heredoc(opening, body)
            }
        }
    }

    // A `-` in prefix form: it belongs to the number behind it.
    fn minus(&mut self, rest_behind: &[u8]) -> Result<(), RubyAt>
        requires { self.old.state.place + 1 + length rest_behind.now < 2 ^ 32 }
        ensures { Steps (spec.minus self.old rest_behind.now) result self.new }
    {
        if begins_with_digit(rest_behind) {
            let number = number_here(true, self.state, rest_behind)?;
            return self.puts(number);
        }
        self.puts_kind(RubyKind::Prefix(Sign::Minus), 1)
    }

    // An operator with `=` behind it.
    #[tactic(auto, unfolding(crate::specs::Machine::assigning))]
    fn assigning(&mut self, alloc: Global, rest: &[u8], len: usize) -> Result<(), RubyAt>
        requires within { (0 < len) × (len ≤ length rest.now) }
        requires fits { self.old.state.place + length rest.now < 2 ^ 32 }
        ensures { Steps (spec.assigning self.old rest.now len) result self.new }
    {
        if begins(b'/', rest) && !ends_value(self.state.last) {
            return self.opens_quoted(Quotes::Regexp, false, RubyKind::RegexpOpen, 1);
        }
        let value = text_value(alloc, &rest[..len - 1])?;
        let operator = token(self.state, RubyKind::Assigning, value, len);
        self.puts(operator)
    }

    // A sign of so many bytes in prefix form.
    #[tactic(auto, unfolding(crate::specs::Machine::prefix_sign))]
    fn prefix_sign(
        &mut self,
        text: &[u8],
        sign: Sign,
        len: usize,
        rest_behind: &[u8],
    ) -> Result<(), RubyAt>
        requires some { 0 < len }
        requires long { signs.least_len (meaning.Sign sign) ≤ len }
        requires within { self.old.state.place + len + length rest_behind.now ≤ length text.now }
        requires size { length text.now < 2 ^ 32 }
        ensures { Steps (spec.prefix_sign text.now self.old sign len rest_behind.now) result self.new }
    {
        match sign {
            Sign::Minus => self.minus(rest_behind),
            Sign::Slash => self.opens_quoted(Quotes::Regexp, false, RubyKind::RegexpOpen, 1),
            Sign::Percent => self.opens_words(words_of(rest_behind), closing_behind(rest_behind)),
            Sign::LessLess => self.less_less(text, opening_here(rest_behind)),
            Sign::LeftBrace => self.opens_brace(RubyKind::Prefix(Sign::LeftBrace)),
            _ => self.puts_kind(RubyKind::Prefix(sign), len),
        }
    }

    // A sign of so many bytes, in the form in which it stands.
    fn formed_sign(
        &mut self,
        text: &[u8],
        rest: &[u8],
        sign: Sign,
        len: usize,
    ) -> Result<(), RubyAt>
        requires bytes { (0 < len) × (len ≤ length rest.now) }
        requires long { signs.least_len (meaning.Sign sign) ≤ len }
        requires within { self.old.state.place + length rest.now ≤ length text.now }
        requires size { length text.now < 2 ^ 32 }
        ensures { Steps (spec.found_sign text.now self.old rest.now len (meaning.Sign sign)) result self.new }
    {
        let rest_behind = behind(rest, len);
        if is_prefix(self.state, sign, rest_behind) {
            self.prefix_sign(text, sign, len, rest_behind)
        } else {
            self.plain_sign(sign, len)
        }
    }

    // A sign, by what it is.
    fn found_sign(
        &mut self,
        alloc: Global,
        text: &[u8],
        rest: &[u8],
        found: Found,
    ) -> Result<(), RubyAt>
        requires bytes { (0 < found.len) × (found.len ≤ length rest.now) }
        requires long { signs.least_len found.meaning ≤ found.len }
        requires within { self.old.state.place + length rest.now ≤ length text.now }
        requires size { length text.now < 2 ^ 32 }
        ensures { Steps (spec.found_sign text.now self.old rest.now found.len found.meaning) result self.new }
    {
        match found.meaning {
            Meaning::Assigning => self.assigning(alloc, rest, found.len),
            Meaning::Sign(sign) => self.formed_sign(text, rest, sign, found.len),
        }
    }

    /// The sign here, or what is none.
    pub fn sign_step(&mut self, alloc: Global, text: &[u8], rest: &[u8]) -> Result<(), RubyAt>
        requires within { self.old.state.place + length rest.now ≤ length text.now }
        requires size { length text.now < 2 ^ 32 }
        ensures { Steps (spec.sign_step text.now self.old rest.now (signs.sign_here rest.now)) result self.new }
    {
        match sign_here(rest) {
            Some(found) => self.found_sign(alloc, text, rest, found),
            None => self.fails_here(character_len(rest)),
        }
    }
}
