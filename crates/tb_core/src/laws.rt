//! Laws over the definitions of commands.

ghost use Rattle.tb_core.specs.AheadOne.{AheadOne};
ghost use Rattle.tb_core.specs.Cycles.{AreCyclesRefused};
ghost use Rattle.tb_core.specs.ImportAgain.{ImportTodoAgain};
ghost use Rattle.tb_core.specs.GoodLaws.{AlwaysExtends, KeepsCaller, KeepsGood, KeepsKeys, OpensGood};

/// Each command leaves a good world good.
pub fn keeps_good()
    ensures { KeepsGood }
{}

/// Who is known stays known, with the same key, until a key is set.
pub fn keeps_keys()
    ensures { KeepsKeys }
{}

/// A caller who is known keeps the key, or changes it by the command.
pub fn keeps_caller()
    ensures { KeepsCaller }
{}

/// Each command leaves people, boards and the identifiers of tasks at their places, and what is new goes last.
pub fn extends()
    ensures { AlwaysExtends }
{}

/// The opening world is good.
pub fn opens_good()
    ensures { OpensGood }
{}

/// A link is refused as a cycle exactly where it would close a walk over the tasks.
pub fn cycles_are_refused()
    ensures { AreCyclesRefused }
{}

/// An import that comes again right after itself changes nothing.
pub fn import_again()
    ensures { ImportTodoAgain }
{}

/// While each board looks one ahead and nobody is a reader, the first commands have the answers and the boards that they had before boards could look ahead.
pub fn ahead_one()
    ensures { AheadOne }
{}
