//! Laws of programs. Each function is a law, and does no work: it hands on what holds of every tree with numbers.

ghost use Rattle.std.specs.Prelude.{ℕ, List, IfOk};
ghost use Rattle.ruby_numbers.specs.Laws.{HasEachOnce, IsNumbered};
ghost use Rattle.ruby_parser.specs.Programs.{program_of};

/// The numbers of a program's nodes are 0, 1, 2 and so on, in the order of the text.
#[tactic(auto, using(crate::proofs::ProgramLaws::programs_numbered))]
pub fn numbers_in_order()
    ensures { (text : List ℕ) → IfOk (program_of text) IsNumbered }
{
    ruby_numbers::laws::numbers_in_order();
}

/// No two nodes of a program have one number.
#[tactic(auto, using(crate::proofs::ProgramLaws::programs_distinct))]
pub fn numbers_each_once()
    ensures { (text : List ℕ) → IfOk (program_of text) HasEachOnce }
{
    ruby_numbers::laws::numbers_each_once();
}
