//! An example of the law: a number, and the same number again.
ghost use Rattle.reading_law.specs.Example.{Found, Only, AllElse};

/// What the reader of pairs reads is a pair, each pair is read, and all else is refused at the first token with which no pair goes
/// on.
pub fn pairs_law()
    ensures found { Found }
    ensures only { Only }
    ensures refused { AllElse }
{}
