//! Laws of what messages ask for.
ghost use Rattle.tb_asking.specs.Laws.{OneChangeOfKey};

/// A message that is sent again changes the same own key, or none.
pub fn one_change_of_key()
    ensures { OneChangeOfKey }
{}
