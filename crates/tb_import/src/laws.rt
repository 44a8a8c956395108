//! Laws over the definitions of imports.

ghost use Rattle.tb_import.specs.Again.{AreClosedWalksFound, ImportAgainChangesNothing};
ghost use Rattle.tb_import.specs.Good.{ImportKeepsGood};

/// An import that is accepted leaves a good board good.
pub fn import_keeps_good()
    ensures { ImportKeepsGood }
{}

/// An accepted import that comes again finds all tasks known, and changes nothing.
pub fn import_again()
    ensures { ImportAgainChangesNothing }
{}

/// An import is refused as a cycle where a walk over tasks would lead from one back to it, and nowhere else.
pub fn closed_walks_are_found()
    ensures { AreClosedWalksFound }
{}
