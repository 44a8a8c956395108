ghost use Rattle.std.specs.Cmp.Lexicographic.{on_texts};
ghost use Rattle.tb_task.specs.Extra.{by_name};

use std::alloc::AllocError;
use std::cmp::Ordering;
use tb_values::{Duplicate, Keyed, NonEmptyText, Same, Text};

/// What an attribute says that the task format doesn't know.
#[derive(Drop)]
pub enum ExtraValue {
    Text(Text),
    Whole(i64),
    Truth(bool),
    Null,
}

/// An attribute that the task format doesn't know, kept as it came.
#[derive(Drop)]
pub struct Extra {
    pub name: NonEmptyText,
    pub value: ExtraValue,
}

/// Extra attributes are in byte order of their names.
impl Keyed for Extra {
    ghost order = { by_name };

    ghost total = { on_texts (λ e. e.name) };

    fn compare(&self, other: &Extra) -> Ordering {
        self.name.compare(&other.name)
    }
}

impl Duplicate for ExtraValue {
    fn duplicate(&self) -> Result<ExtraValue, AllocError> {
        match self {
            ExtraValue::Text(text) => Ok(ExtraValue::Text(text.duplicate()?)),
            ExtraValue::Whole(number) => Ok(ExtraValue::Whole(*number)),
            ExtraValue::Truth(truth) => Ok(ExtraValue::Truth(*truth)),
            ExtraValue::Null => Ok(ExtraValue::Null),
        }
    }
}

impl Duplicate for Extra {
    fn duplicate(&self) -> Result<Extra, AllocError> {
        let name = self.name.duplicate()?;
        let value = self.value.duplicate()?;
        Ok(Extra { name, value })
    }
}

impl Same for ExtraValue {
    fn same(&self, other: &ExtraValue) -> bool {
        match (self, other) {
            (ExtraValue::Text(one), ExtraValue::Text(two)) => one.same(two),
            (ExtraValue::Whole(one), ExtraValue::Whole(two)) => one == two,
            (ExtraValue::Truth(one), ExtraValue::Truth(two)) => one == two,
            (ExtraValue::Null, ExtraValue::Null) => true,
            _ => false,
        }
    }
}

impl Same for Extra {
    fn same(&self, other: &Extra) -> bool {
        self.name.same(&other.name) && self.value.same(&other.value)
    }
}
