//! What holds of the words that are told.
ghost use Rattle.tb_causes.specs.Shell.{AreReadAgain};

/// A shell reads the words of a call that is to go on as they were, whatever stands in them.
pub fn words_are_read_again()
    ensures { AreReadAgain }
{}
