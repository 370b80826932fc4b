//! What a rekey file is: its bytes, when they are one, and what stands in them.
#![tactic(auto)]

ghost use Rattle.file_rules.specs.Laws.{FileLaws};

/// What was written is read back, what is accepted was written, and the file of a lawful plan is
/// one.
pub fn file_laws()
    ensures { FileLaws }
{}
