ghost use Rattle.std.specs.Prelude.{◌≡◌, IfOk};
ghost use Rattle.tb_board.specs.Changing.{without_place};
ghost use Rattle.tb_board.specs.Templates.{is_gone_at};

use std::alloc::{AllocError, Global};
use tb_task::{Mark, TaskId};
use tb_values::{Duplicate, Items, Same};

/// A place of a template's mask without an instance on the board, with its mark. Places of a mask count from 0.
#[derive(Clone, Copy, Debug, PartialEq, Eq)]
pub struct Gone {
    pub template: TaskId,
    pub place: u32,
    pub mark: Mark,
}

/// The gone places, without this one of the template.
pub fn gone_without(
    alloc: Global,
    gone: &[Gone],
    template: TaskId,
    place: u32,
) -> Result<Items<Gone>, AllocError>
    ensures { IfOk result (λ rest. rest ≡ without_place template place gone.now) }
{
    let mut rest = Items::new(alloc);
    for item in gone {
        if !is_at(item, template, place) {
            rest.push(*item)?;
        }
    }
    Ok(rest)
}

fn is_at(gone: &Gone, template: TaskId, place: u32) -> bool
    ensures { result ≡ is_gone_at template place gone.now }
{
    gone.template == template && gone.place == place
}

impl Duplicate for Gone {
    fn duplicate(&self) -> Result<Gone, AllocError> {
        Ok(*self)
    }
}

impl Same for Gone {
    fn same(&self, other: &Gone) -> bool {
        self.template == other.template && self.place == other.place && self.mark == other.mark
    }
}
