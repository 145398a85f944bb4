//! Laws of programs. Each function is a law, and does no work.

ghost use Rattle.ruby_tree.specs.declared.nodes.Node.{Node};
ghost use Rattle.ruby_numbers.specs.Laws.{HasEachOnce, IsNumbered};
ghost use Rattle.ruby_numbers.specs.Numbers.{node_numbered};

/// The numbers of a program's nodes are 0, 1, 2 and so on, in the order of the text.
#[tactic(auto, using(crate::proofs::ProgramLaws::programs_numbered))]
pub fn numbers_in_order()
    ensures { (root : Node) → IsNumbered (record { root = (node_numbered root 0).0 }) }
{}

/// No two nodes of a program have one number.
#[tactic(auto, using(crate::proofs::ProgramLaws::programs_distinct))]
pub fn numbers_each_once()
    ensures { (root : Node) → HasEachOnce (record { root = (node_numbered root 0).0 }) }
{}
