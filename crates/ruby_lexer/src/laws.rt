//! Laws of the tokens. Each function is a law, and does no work.

ghost use Rattle.std.specs.Prelude.{◌≡◌, ◌<◌, ℕ, List, length, IfOk, Some};
ghost use Rattle.ruby_lexer.specs.Machine.{at_start, tokens_of};
ghost use Rattle.ruby_lexer.specs.Laws.{EndsOnce, answer_within};

/// The last token of a text is its end, and no other is. This holds of all bytes, also those that aren't UTF-8.
pub fn ends_once()
    ensures { (text : List ℕ) → IfOk (tokens_of text) EndsOnce }
{}

/// A text is read in at most as many steps as it has bytes, and one: in each number of steps above that of its bytes the lexer comes
/// to its answer, and it is the same. So the steps that the definition of the tokens counts never run out.
pub fn steps_suffice()
    ensures { (text : List ℕ) (steps : ℕ) → length text < steps → answer_within steps text at_start ≡ Some (tokens_of text) }
{}
