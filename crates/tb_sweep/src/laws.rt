//! Laws over the definition of the sweep.

ghost use Rattle.tb_sweep.specs.AtOnce.{OneAheadSweepsAtOnce};
ghost use Rattle.tb_sweep.specs.Kept.{SweepAddsLast, SweepEnds, SweepKeepsGood};

/// The sweep leaves a good board good.
pub fn sweep_keeps_good()
    ensures { SweepKeepsGood }
{}

/// The sweep removes nothing, and what it adds goes last.
pub fn sweep_adds_last()
    ensures { SweepAddsLast }
{}

/// Where nothing more is wanted, a further sweep at the same moment changes nothing.
pub fn sweep_ends()
    ensures { SweepEnds }
{}

/// A board that looks one ahead is swept as boards were before they could look ahead.
pub fn one_ahead_sweeps_at_once()
    ensures { OneAheadSweepsAtOnce }
{}
