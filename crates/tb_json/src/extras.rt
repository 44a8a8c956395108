//! Extra attributes: the members of names that the task format doesn't know.

ghost use Rattle.std.specs.Prelude.{◌≡◌, IfOk, OnOk, string_bytes};
ghost use Rattle.serde_json.specs.View.{view, members_view};
ghost use Rattle.tb_json.specs.Extras.{value_form, extra_form, extras_of, dropped_of, capped, with_member, dropped_with, with_extra, one_more_if_none};

use serde_json::{Map, Value};
use std::alloc::{AllocError, Global};
use tb_task::{Extra, ExtraValue, is_attribute};
use tb_values::{NonEmptyText, Ordered, Text};

/// What the value of an extra attribute says, or nothing where it has another form.
pub(crate) fn extra_value(alloc: Global, value: &Value) -> Result<Option<ExtraValue>, AllocError>
    ensures { IfOk result (λ extra. extra ≡ value_form (view value.now)) }
{
    Ok(match value {
        Value::Null => Some(ExtraValue::Null),
        Value::Bool(truth) => Some(ExtraValue::Truth(*truth)),
        Value::Number(number) => number.as_i64().map(ExtraValue::Whole),
        Value::String(text) => Some(ExtraValue::Text(Text::from_str(alloc, text)?)),
        Value::Array(_) | Value::Object(_) => None,
    })
}

/// The extra attributes of an object, and how many of its members were dropped.
#[derive(Drop)]
pub(crate) struct Extras {
    pub kept: Ordered<Extra>,
    pub dropped: u32,
}

impl Extras {
    /// Takes a member whose name isn't one of a known attribute. One with the empty name is dropped.
    fn add_other(&mut self, alloc: Global, name: &str, value: &Value) -> Result<(), AllocError>
        ensures kept { OnOk result
            (self.new.kept ≡ with_extra self.old.kept name.now
            (extra_form name.now (view value.now))) }
        ensures dropped { OnOk result
            (self.new.dropped
            ≡ one_more_if_none self.old.dropped (extra_form name.now (view value.now))) }
    {
        let name = NonEmptyText::from_str(alloc, name)?;
        let value = extra_value(alloc, value)?;
        match (name, value) {
            (Some(name), Some(value)) => self.kept.insert(Extra { name, value })?,
            _ => self.dropped = self.dropped.saturating_add(1),
        }
        Ok(())
    }

    /// Takes one member of the object.
    fn add(&mut self, alloc: Global, name: &str, value: &Value) -> Result<(), AllocError>
        ensures kept { OnOk result
            (self.new.kept ≡ with_member self.old.kept name.now (view value.now)) }
        ensures dropped { OnOk result
            (self.new.dropped ≡ dropped_with self.old.dropped name.now (view value.now)) }
    {
        if is_attribute(name) {
            return Ok(());
        }
        self.add_other(alloc, name, value)
    }

    /// The extra attributes among the members of an object.
    pub(crate) fn of(alloc: Global, members: &Map<String, Value>) -> Result<Extras, AllocError>
        ensures kept { IfOk result (λ e. e.kept ≡ extras_of (members_view members.now.entries)) }
        ensures dropped { IfOk result
            (λ e. e.dropped ≡ capped (dropped_of (members_view members.now.entries))) }
    {
        let mut extras = Extras {
            kept: Ordered::new(alloc),
            dropped: 0,
        };
        for (name, value) in members {
            extras.add(alloc, name, value)?;
        }
        Ok(extras)
    }
}
