//! Laws of the grammar. Each function is a law, and does no work.

ghost use Rattle.std.specs.Prelude.{◌≡◌, ℕ, List};
ghost use Rattle.rbs_lexer.specs.Tokens.{Token};
ghost use Rattle.rbs_grammar.specs.Levels.{Room};
ghost use Rattle.rbs_grammar.specs.Parse.{Tree, Spells, Opens, SyntaxAt, SpelledOrRefused};
ghost use Rattle.rbs_grammar.specs.Texts.{Answer, IsAnswer};

/// No tokens spell two trees, whatever room there is.
pub fn one_tree()
    ensures { (n m : Room) (ts : List Token) (x y : Tree) → Spells n ts x → Spells m ts y → x ≡ y }
{}

/// Whatever room there is, a list of tokens spells a tree, or has a place where it can go on no further: a syntax fault, or one rule
/// more than there is room for. Up to that place the tokens of some tree begin the same way.
pub fn every_list_is_spelled_or_refused()
    ensures { (n : Room) (ts : List Token) → SpelledOrRefused n ts }
{}

/// What spells a tree is not refused: it has no syntax fault, and no rule more opens in it than there is room for.
pub fn a_spelled_list_is_not_refused()
    ensures syntax { (n : Room) (ts : List Token) (x : Tree) (at : List Token) → Spells n ts x → ¬ (SyntaxAt ts at) }
    ensures deep { (n : Room) (ts : List Token) (x : Tree) (at : List Token) → Spells n ts x → ¬ (Opens n ts at) }
{}

/// A text has one answer: one tree, or one refusal.
pub fn one_answer()
    ensures { (text : List ℕ) (a b : Answer) → IsAnswer text a → IsAnswer text b → a ≡ b }
{}
