use crate::moment::Moment;
use crate::priority::Priority;
use std::alloc::AllocError;
use tb_values::{Duplicate, NonEmptyText, Ordered, Same, Text};

/// What an attribute is to say.
#[derive(Drop)]
pub enum Given {
    Text(Text),
    Moment(Moment),
    Priority(Priority),
    Tags(Ordered<Text>),
    Number(i64),
    Truth(bool),
}

/// One attribute that is set, or removed where no value is given.
#[derive(Drop)]
pub struct Edit {
    pub name: NonEmptyText,
    pub value: Option<Given>,
}

impl Duplicate for Given {
    fn duplicate(&self) -> Result<Given, AllocError> {
        match self {
            Given::Text(text) => Ok(Given::Text(text.duplicate()?)),
            Given::Moment(moment) => Ok(Given::Moment(*moment)),
            Given::Priority(priority) => Ok(Given::Priority(*priority)),
            Given::Tags(tags) => Ok(Given::Tags(tags.duplicate()?)),
            Given::Number(number) => Ok(Given::Number(*number)),
            Given::Truth(truth) => Ok(Given::Truth(*truth)),
        }
    }
}

impl Duplicate for Edit {
    fn duplicate(&self) -> Result<Edit, AllocError> {
        let name = self.name.duplicate()?;
        let value = self.value.duplicate()?;
        Ok(Edit { name, value })
    }
}

impl Same for Given {
    fn same(&self, other: &Given) -> bool {
        match (self, other) {
            (Given::Text(one), Given::Text(two)) => one.same(two),
            (Given::Moment(one), Given::Moment(two)) => one == two,
            (Given::Priority(one), Given::Priority(two)) => one == two,
            (Given::Tags(one), Given::Tags(two)) => one.same(two),
            (Given::Number(one), Given::Number(two)) => one == two,
            (Given::Truth(one), Given::Truth(two)) => one == two,
            _ => false,
        }
    }
}

impl Same for Edit {
    fn same(&self, other: &Edit) -> bool {
        self.name.same(&other.name) && self.value.same(&other.value)
    }
}
