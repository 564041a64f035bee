//! Theorems on the grammar of command lines, each as the contract of a public function.

ghost use Rattle.ptopts.specs.Laws.Theorems.{ReadingMatchesGrammar, GrammarIsUnambiguous, CommandsMatchGrammar};

/// Does nothing at run time. Its contract states that the grammar of words (POSIX.1-2017, XBD 12.2) and their reading
/// from left to right agree. Words are read as options and operands if and only if the grammar gives them these, and no
/// option with a value is given twice that must not be; and the grammar gives words no others.
pub fn words_have_one_reading()
    ensures matches_grammar { ReadingMatchesGrammar }
    ensures unambiguous { GrammarIsUnambiguous }
{}

/// Does nothing at run time. Its contract states that words specify a command if and only if they are the name of a
/// tool, and options and operands that the grammar gives and the tool allows. So `Command::read` accepts nothing that
/// the grammar does not.
#[tactic(auto, using(crate::proofs::CommandGrammar::meant_as_spelled))]
pub fn commands_are_spelled()
    ensures { CommandsMatchGrammar }
{}
