//! Why a body isn't what its call takes.
ghost use Rattle.std.specs.Prelude.{◌≡◌, IfOk};
ghost use Rattle.serde_json.specs.View.{view};
ghost use Rattle.tb_asking.specs.declared.body_fault.BodyFault.TheVariants.{Memory};
ghost use Rattle.tb_asking.specs.BodyFault.{item_json, json_of, text_of};

use serde_json::{Value, json};
use std::alloc::{AllocError, AllocFailed, Global};
use tb_values::Text;

/// Why a body can't be taken.
#[derive(Debug, Drop)]
pub enum BadBody {
    /// It is no text, no JSON or not of the kind that is asked for, or it holds too many tasks.
    Whole,
    /// The member of this name is in a wrong form.
    Field(Text),
    /// The task at this index of an import, counted from 0, is in a wrong form; the name is that of the member at fault, and empty
    /// where the item is no object.
    Item(usize, Text),
}

/// Why the reading of a body ended.
#[derive(Debug, Drop)]
pub enum BodyFault {
    Refused(BadBody),
    Memory,
}

impl From<AllocError> for BodyFault {
    ghost from_gives = { λ _ e. e ≡ Memory };

    fn from(_e: AllocError) -> BodyFault {
        BodyFault::Memory
    }
}

impl<T: Drop> From<AllocFailed<T>> for BodyFault {
    ghost from_gives = { λ _ e. e ≡ Memory };

    fn from(_e: AllocFailed<T>) -> BodyFault {
        BodyFault::Memory
    }
}

impl BadBody {
    /// What a sender is told, as JSON: that the body is bad, and where.
    pub fn to_json(&self, alloc: Global) -> Result<Value, AllocError>
        ensures { IfOk result (λ json. view json ≡ json_of self.now) }
    {
        match self {
            BadBody::Whole => json!(in alloc; {"name": "BadBody"}),
            BadBody::Field(field) => json!(in alloc; {"field": field.as_str(), "name": "BadBody"}),
            BadBody::Item(at, field) => item_to_json(alloc, *at, field.as_str()),
        }
    }

    /// The same as compact text.
    pub fn to_text(&self, alloc: Global) -> Result<Text, AllocError>
        ensures { IfOk result (λ text. text ≡ text_of self.now) }
    {
        let json = self.to_json(alloc)?;
        Ok(Text::from_string(json.to_string(alloc)?))
    }
}

fn item_to_json(alloc: Global, at: usize, field: &str) -> Result<Value, AllocError>
    ensures { IfOk result (λ json. view json ≡ item_json at field.now) }
{
    json!(in alloc; {"at": at, "field": field, "name": "BadBody"})
}
