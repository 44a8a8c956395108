//! The places that no connection has.
ghost use Rattle.std.specs.Prelude.{◌≡◌, position};
ghost use Rattle.std.specs.List.{list_all};
ghost use Rattle.tb_timeouts.specs.Stage.{is_vacant};

use crate::stage::Stage;

/// The first place that no connection has.
pub fn first_vacant(stages: &[Stage]) -> Option<usize>
    ensures { result ≡ position is_vacant stages.now }
{
    stages.iter().position(|stage| stage.is_vacant())
}

/// Whether there is no connection.
pub fn are_all_vacant(stages: &[Stage]) -> bool
    ensures { result ≡ list_all is_vacant stages.now }
{
    stages.iter().all(|stage| stage.is_vacant())
}
