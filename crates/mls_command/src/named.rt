//! The words of numbered causes, denials and outcomes, and the short names of rules. Nothing runs here: the contract is
//! the law.
ghost use Rattle.mls_command.specs.Named.{WordsAreNamed};

/// Messages carry these words and no others: the tables from which they are taken have them, each in its place.
pub fn words_are_named()
    ensures { WordsAreNamed }
{}
