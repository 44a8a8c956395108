//! Laws over the definitions of histories.

ghost use Rattle.tb_history.specs.Laws.{ChosenAreFew, DeedsAreNotedLast, EntriesStay, FewAreAllShown, FromEachNumberOn, LastStandAtTheEnd, NumbersAreOfKinds, NumbersFollow};

/// The entries of a board are numbered from 1 without a gap.
pub fn numbers_follow()
    ensures { NumbersFollow }
{}

/// A deed puts one entry at the end of its board's history, and changes no other history.
pub fn deeds_are_noted_last()
    ensures { DeedsAreNotedLast }
{}

/// What a call does later changes no entry and no number of one.
pub fn entries_stay()
    ensures { EntriesStay }
{}

/// A page shows 100 entries at most: from a number on, or the last ones, which stand at the end and are all where there are no more.
pub fn pages()
    ensures few { ChosenAreFew }
    ensures from { FromEachNumberOn }
    ensures all { FewAreAllShown }
    ensures end { LastStandAtTheEnd }
{}

/// A number stands for the kind that has it, and beyond 1 to 18 for none.
pub fn numbers_are_of_kinds()
    ensures { NumbersAreOfKinds }
{}
