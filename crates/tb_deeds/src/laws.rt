//! Laws over the definitions of deeds.

ghost use Rattle.tb_deeds.specs.Laws.{KindsHaveNumbers, QuietSweepsChangeNothing, SweepsTellWhatCame};

/// A kind is found by its number.
pub fn kinds_have_numbers()
    ensures { KindsHaveNumbers }
{}

/// The answer to a sweep tells how many instances came by it.
pub fn sweeps_tell_what_came()
    ensures { SweepsTellWhatCame }
{}

/// A sweep that is no deed changes nothing.
pub fn quiet_sweeps_change_nothing()
    ensures { QuietSweepsChangeNothing }
{}
