ghost use Rattle.tb_cleaning.specs.Readable.{RefusesNone};

/// Of the tasks that cleaning brings none is refused as it is written, where it is read at the moment 0.
pub fn none_is_refused()
    ensures { RefusesNone }
{}
