//! Statements of the whole: the worked examples, of the definitions themselves, and that the
//! product's parts keep the laws that the law over runs asks for. There is no code to run here.
#![tactic(auto)]

ghost use Rattle.statements.specs.Worked.{WorkedExamplesHold};

mod parts;

pub use parts::parts_are_lawful;

/// Two entries of the S-box; the numbers of pairs and bytes of small changes and of the largest;
/// what a server does in its first change and in its last; and a run, with the book, the player and
/// the keys that it leads to.
#[tactic(auto, using(crate::proofs::All::worked_examples))]
pub fn worked_examples_hold()
    ensures { WorkedExamplesHold }
{}
