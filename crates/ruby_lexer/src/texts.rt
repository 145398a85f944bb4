ghost use Rattle.std.specs.Prelude.{◌≡◌, ◌≤◌, ◌<◌, ◌+◌, ◌^◌, length, take, if◌then◌else◌, Ok, IfOk};
ghost use Rattle.ruby_lexer.specs.declared.kind.RubyKind.TheVariants as k;
ghost use Rattle.ruby_lexer.specs.declared.token.RubyValue.TheVariants as value;
ghost use Rattle.ruby_lexer.specs.Characters as characters;
ghost use Rattle.ruby_lexer.specs.Strings as strings;
ghost use Rattle.ruby_lexer.specs.Machine as spec;
ghost use Rattle.ruby_lexer.specs.Answers.{Steps};

use crate::blanks::past_line;
use crate::characters::{begins, begins_with_space, behind, front};
use crate::heredocs::ends_heredoc;
use crate::kind::RubyKind;
use crate::lines::{line_end_len, whole_line_len};
use crate::machine::Machine;
use crate::placing::{put, text_value, token};
use crate::refusal::RubyAt;
use crate::state::{Alias, Heredoc, Opened, Quoted, Quotes, State, Words};
use crate::strings::{
    Passed, append, as_written, begins_code, closer, flags_len, has_code, piece_here,
};
use crate::token::{RubyToken, RubyValue};
use src_text::{Mem, NoMemory, Seq, Span, Text};
use std::alloc::Global;

// ---- parts

fn is_nil(part: &Seq<u8>) -> bool
    ensures { result ≡ characters.is_nil part.now }
{
    match part.as_slice() {
        [] => true,
        _ => false,
    }
}

// The text that a part is. Those of a text are whole characters; for others there would be no memory.
fn text_of(part: Seq<u8>) -> Mem<Text>
    ensures { IfOk result (λ text. text ≡ part) }
{
    match String::from_utf8(part.into_vec()) {
        Ok(text) => Ok(Text::from_string(text)),
        Err(_) => Err(NoMemory),
    }
}

// The token of a part that stands for this text and ends where the lexer stands.
fn part_token(state: State, kind: RubyKind, text: Text) -> RubyToken
    requires { state.place < 2 ^ 32 }
    ensures { result ≡ record { kind = kind; value = value.Text text; span = record { start = state.part_start; end = state.place }; blank = state.blank } }
{
    RubyToken {
        kind,
        value: RubyValue::Text(text),
        span: Span {
            start: state.part_start,
            end: state.place as u32,
        },
        blank: state.blank,
    }
}

// Behind a piece.
fn past_piece(state: State, passed: Passed) -> State
    requires { state.place + passed.len < 2 ^ 32 }
    ensures { result ≡ (if passed.ends_line then spec.past_line state passed.len else record state { place = state.place + passed.len }) }
{
    if passed.ends_line {
        past_line(state, passed.len)
    } else {
        State {
            place: state.place + passed.len,
            ..state
        }
    }
}

// The token of a heredoc's end, which stands behind its opening.
fn heredoc_close(state: State, heredoc: Heredoc) -> RubyToken
    requires { state.place < 2 ^ 32 }
    ensures { result ≡ spec.heredoc_close state heredoc }
{
    RubyToken {
        kind: RubyKind::HeredocClose,
        value: RubyValue::Body(Span {
            start: heredoc.body,
            end: state.place as u32,
        }),
        span: Span {
            start: heredoc.behind,
            end: heredoc.behind,
        },
        blank: state.blank,
    }
}

impl Machine {
    // Behind the part that was read so far, where it stands for something.
    fn flushed(&mut self, alloc: Global, kind: RubyKind) -> Mem<()>
        requires { self.old.state.place < 2 ^ 32 }
        ensures value { IfOk result (λ _. self.new ≡ spec.flushed kind self.old) }
        ensures place { IfOk result (λ _. self.new.state.place ≡ self.old.state.place) }
    {
        if is_nil(&self.part) {
            return Ok(());
        }
        let part = std::mem::replace(&mut self.part, Seq::new(alloc));
        let token = part_token(self.state, kind, text_of(part)?);
        self.state = put(self.state, &token);
        self.tokens.push(token)
    }

    // The piece here goes to the part.
    fn reads_piece(&mut self, quotes: Quotes, rest: &[u8]) -> Result<(), RubyAt>
        requires some { 0 < length rest.now }
        requires fits { self.old.state.place + length rest.now < 2 ^ 32 }
        ensures { Steps (spec.past_piece self.old (strings.piece_here quotes rest.now)) result self.new }
    {
        let passed = piece_here(&mut self.part, quotes, rest)?;
        self.state = past_piece(self.state, passed);
        Ok(())
    }

    // What is here goes to the part as it is written.
    fn reads_as_written(&mut self, rest: &[u8]) -> Result<(), RubyAt>
        requires some { 0 < length rest.now }
        requires fits { self.old.state.place + length rest.now < 2 ^ 32 }
        ensures { Steps (spec.past_piece self.old (strings.as_written rest.now)) result self.new }
    {
        let passed = as_written(&mut self.part, rest)?;
        self.state = past_piece(self.state, passed);
        Ok(())
    }

    // A `#{`.
    fn opens_code(&mut self, alloc: Global) -> Result<(), RubyAt>
        requires { self.old.state.place + 2 < 2 ^ 32 }
        ensures { Steps (spec.opens_code self.old) result self.new }
    {
        self.flushed(alloc, RubyKind::Part)?;
        let opening = token(self.state, RubyKind::CodeOpen, RubyValue::Absent, 2);
        self.opens(opening, Opened::Code)
    }

    // The end of a text whose parts are of the first kind; the token of its end is of the second kind.
    fn closes(
        &mut self,
        alloc: Global,
        part: RubyKind,
        kind: RubyKind,
        value: RubyValue,
        len: usize,
    ) -> Result<(), RubyAt>
        requires { self.old.state.place + len < 2 ^ 32 }
        ensures { Steps (spec.closes self.old part kind value len) result self.new }
    {
        self.flushed(alloc, part)?;
        self.stack.pop();
        let closing = token(self.state, kind, value, len);
        self.puts(closing)
    }

    // The end of a symbol in quotes; as an alias's first name it is followed by the second.
    fn closes_symbol(&mut self, alloc: Global, alias: bool) -> Result<(), RubyAt>
        requires { self.old.state.place + 1 < 2 ^ 32 }
        ensures { Steps (spec.before_second_name alias (spec.closes self.old k.Part k.SymbolClose value.Absent 1)) result self.new }
    {
        self.closes(
            alloc,
            RubyKind::Part,
            RubyKind::SymbolClose,
            RubyValue::Absent,
            1,
        )?;
        if alias {
            self.state = State {
                alias: Alias::Second,
                ..self.state
            };
        }
        Ok(())
    }

    // The end of a regexp, by what stands behind its `/`.
    fn closes_regexp(&mut self, alloc: Global, rest_behind: &[u8]) -> Result<(), RubyAt>
        requires { self.old.state.place + 1 + length rest_behind.now < 2 ^ 32 }
        ensures { Steps (spec.closes self.old k.Part k.RegexpClose (value.Text (take (strings.flags_len rest_behind.now) rest_behind.now)) (1 + strings.flags_len rest_behind.now)) result self.new }
    {
        let len = flags_len(rest_behind);
        let flags = text_value(alloc, &rest_behind[..len])?;
        self.closes(alloc, RubyKind::Part, RubyKind::RegexpClose, flags, 1 + len)
    }

    // The end of a string in quotes.
    fn closes_string(&mut self, alloc: Global) -> Result<(), RubyAt>
        requires { self.old.state.place + 1 < 2 ^ 32 }
        ensures { Steps (spec.closes self.old k.Part k.StringClose value.Absent 1) result self.new }
    {
        self.closes(
            alloc,
            RubyKind::Part,
            RubyKind::StringClose,
            RubyValue::Absent,
            1,
        )
    }

    // The end of a text in quotes, by what stands behind its closing byte.
    #[tactic(auto, unfolding(crate::specs::Machine::closes_quoted))]
    fn closes_quoted(
        &mut self,
        alloc: Global,
        quotes: Quotes,
        alias: bool,
        rest_behind: &[u8],
    ) -> Result<(), RubyAt>
        requires { self.old.state.place + 1 + length rest_behind.now < 2 ^ 32 }
        ensures { Steps (spec.closes_quoted self.old quotes alias rest_behind.now) result self.new }
    {
        match quotes {
            Quotes::Plain => self.closes_string(alloc),
            Quotes::Double => self.closes_string(alloc),
            Quotes::Symbol => self.closes_symbol(alloc, alias),
            Quotes::Regexp => self.closes_regexp(alloc, rest_behind),
        }
    }

    /// A step in a text in quotes.
    #[tactic(auto, unfolding(crate::specs::Machine::quoted_step))]
    pub fn quoted_step(&mut self, alloc: Global, quoted: Quoted, rest: &[u8]) -> Result<(), RubyAt>
        requires { self.old.state.place + length rest.now < 2 ^ 32 }
        ensures { Steps (spec.quoted_step self.old quoted rest.now) result self.new }
    {
        if rest.is_empty() {
            return Err(RubyAt::Syntax(quoted.at));
        }
        if begins(closer(quoted.quotes), rest) {
            return self.closes_quoted(alloc, quoted.quotes, quoted.alias, behind(rest, 1));
        }
        if has_code(quoted.quotes) && begins_code(rest) {
            return self.opens_code(alloc);
        }
        self.reads_piece(quoted.quotes, rest)
    }

    // The word that was read so far, where there is one, and a space or a tab.
    fn past_space(&mut self, alloc: Global) -> Result<(), RubyAt>
        requires { self.old.state.place + 1 < 2 ^ 32 }
        ensures { Steps (spec.past_space self.old) result self.new }
    {
        self.flushed(alloc, RubyKind::Word)?;
        self.state = State {
            place: self.state.place + 1,
            ..self.state
        };
        Ok(())
    }

    // The word that was read so far, where there is one, and a line's end of so many bytes.
    fn past_words_line(&mut self, alloc: Global, len: usize) -> Result<(), RubyAt>
        requires { self.old.state.place + len < 2 ^ 32 }
        ensures { Steps (spec.past_words_line self.old len) result self.new }
    {
        self.flushed(alloc, RubyKind::Word)?;
        self.state = past_line(self.state, len);
        Ok(())
    }

    // Where the word begins that is being read.
    fn word_start(&self) -> u32
        requires { self.now.state.place < 2 ^ 32 }
        ensures { result ≡ (if characters.is_nil self.now.part then self.now.state.place else self.now.state.part_start) }
    {
        if is_nil(&self.part) {
            self.state.place as u32
        } else {
            self.state.part_start
        }
    }

    // A byte of a word.
    fn word_byte(&mut self, rest: &[u8]) -> Result<(), RubyAt>
        requires { self.old.state.place + 1 < 2 ^ 32 }
        ensures { Steps (spec.word_byte self.old rest.now) result self.new }
    {
        let part_start = self.word_start();
        append(&mut self.part, front(rest, 1))?;
        self.state = State {
            place: self.state.place + 1,
            part_start,
            ..self.state
        };
        Ok(())
    }

    /// A step in a word list.
    #[tactic(auto, unfolding(crate::specs::Machine::words_step))]
    pub fn words_step(&mut self, alloc: Global, words: Words, rest: &[u8]) -> Result<(), RubyAt>
        requires { self.old.state.place + length rest.now < 2 ^ 32 }
        ensures { Steps (spec.words_step self.old words rest.now) result self.new }
    {
        if rest.is_empty() {
            return Err(RubyAt::Syntax(words.at));
        }
        if begins(words.closer, rest) {
            return self.closes(
                alloc,
                RubyKind::Word,
                RubyKind::WordsClose,
                RubyValue::Absent,
                1,
            );
        }
        if begins_with_space(rest) {
            return self.past_space(alloc);
        }
        let end = line_end_len(rest);
        if end != 0 {
            return self.past_words_line(alloc, end);
        }
        self.word_byte(rest)
    }

    // The end of a heredoc, at the line of its word.
    #[tactic(auto, unfolding(crate::specs::Machine::closes_heredoc))]
    fn closes_heredoc(&mut self, alloc: Global, heredoc: Heredoc, rest: &[u8]) -> Result<(), RubyAt>
        requires { self.old.state.place + length rest.now < 2 ^ 32 }
        ensures { Steps (spec.closes_heredoc self.old heredoc rest.now) result self.new }
    {
        self.flushed(alloc, RubyKind::Part)?;
        let bodies_end = self.state.place + whole_line_len(rest);
        let closing = heredoc_close(self.state, heredoc);
        self.state = State {
            bodies_end: Some(bodies_end),
            ..put(self.state, &closing)
        };
        self.stack.pop();
        self.tokens.push(closing)?;
        Ok(())
    }

    /// A step in a heredoc's body.
    #[tactic(auto, unfolding(crate::specs::Machine::heredoc_step))]
    pub fn heredoc_step(
        &mut self,
        alloc: Global,
        text: &[u8],
        heredoc: Heredoc,
        rest: &[u8],
    ) -> Result<(), RubyAt>
        requires within { self.old.state.place ≤ length text.now }
        requires fits { self.old.state.place + length rest.now < 2 ^ 32 }
        ensures { Steps (spec.heredoc_step text.now self.old heredoc rest.now) result self.new }
    {
        if ends_heredoc(text, heredoc, self.state.place, rest) {
            return self.closes_heredoc(alloc, heredoc, rest);
        }
        if rest.is_empty() {
            return Err(RubyAt::Syntax(heredoc.at));
        }
        if heredoc.plain {
            return self.reads_as_written(rest);
        }
        if begins_code(rest) {
            return self.opens_code(alloc);
        }
        self.reads_piece(Quotes::Double, rest)
    }
}
