//! What a task has before it is changed.
ghost use Rattle.std.specs.Prelude.{◌≡◌, IfOk, OnOk, option_copied};
ghost use Rattle.serde_json.specs.View.{view};
ghost use Rattle.tb_my.specs.Old.{copied_settings, old_named, old_of, with_old};
ghost use Rattle.tb_my.specs.Shown.{text_at};

use crate::part::Setting;
use crate::shown::text_at;
use serde_json::Value;
use std::alloc::{AllocError, Global};
use tb_values::{Duplicate, Items, Text};

/// The attributes that words may set, and the status.
#[derive(Drop)]
pub struct Old {
    pub due: Option<Text>,
    pub wait: Option<Text>,
    pub scheduled: Option<Text>,
    pub until: Option<Text>,
    pub priority: Option<Text>,
    pub project: Option<Text>,
    pub assignee: Option<Text>,
    pub status: Option<Text>,
}

pub(crate) fn read_old(alloc: Global, value: &Value) -> Result<Old, AllocError>
    ensures { IfOk result (λ old. old ≡ old_of (view value.now)) }
{
    Ok(Old {
        due: text_in(alloc, value, "due")?,
        wait: text_in(alloc, value, "wait")?,
        scheduled: text_in(alloc, value, "scheduled")?,
        until: text_in(alloc, value, "until")?,
        priority: text_in(alloc, value, "priority")?,
        project: text_in(alloc, value, "project")?,
        assignee: text_in(alloc, value, "assignee")?,
        status: text_in(alloc, value, "status")?,
    })
}

fn text_in(alloc: Global, value: &Value, name: &str) -> Result<Option<Text>, AllocError>
    ensures { IfOk result (λ text. text ≡ text_at name.now (view value.now)) }
{
    match text_at(value, name) {
        Some(text) => Ok(Some(Text::from_str(alloc, text)?)),
        None => Ok(None),
    }
}

impl Old {
    /// What an attribute is set to.
    #[tactic(auto, unfolding(crate::specs::Old::old_named))]
    pub(crate) fn named(&self, name: &str) -> Option<&Text>
        ensures { option_copied result ≡ old_named self.now name.now }
    {
        match name {
            "due" => self.due.as_ref(),
            "wait" => self.wait.as_ref(),
            "scheduled" => self.scheduled.as_ref(),
            "until" => self.until.as_ref(),
            "priority" => self.priority.as_ref(),
            "project" => self.project.as_ref(),
            "assignee" => self.assignee.as_ref(),
            _ => None,
        }
    }

    /// What a copy of the task has.
    pub(crate) fn copied_settings(&self, alloc: Global) -> Result<Items<Setting>, AllocError>
        ensures { IfOk result (λ settings. settings ≡ copied_settings self.now) }
    {
        let mut settings = Items::new(alloc);
        push_old(&mut settings, alloc, "due", &self.due)?;
        push_old(&mut settings, alloc, "wait", &self.wait)?;
        push_old(&mut settings, alloc, "scheduled", &self.scheduled)?;
        push_old(&mut settings, alloc, "until", &self.until)?;
        push_old(&mut settings, alloc, "priority", &self.priority)?;
        push_old(&mut settings, alloc, "project", &self.project)?;
        push_old(&mut settings, alloc, "assignee", &self.assignee)?;
        Ok(settings)
    }
}

fn push_old(
    settings: &mut Items<Setting>,
    alloc: Global,
    name: &str,
    value: &Option<Text>,
) -> Result<(), AllocError>
    ensures { OnOk result (settings.new ≡ with_old settings.old name.now value.now) }
{
    let Some(value) = value else {
        return Ok(());
    };
    settings.push(Setting {
        name: Text::from_str(alloc, name)?,
        value: Some(value.duplicate()?),
    })
}

impl Duplicate for Old {
    fn duplicate(&self) -> Result<Old, AllocError> {
        Ok(Old {
            due: self.due.duplicate()?,
            wait: self.wait.duplicate()?,
            scheduled: self.scheduled.duplicate()?,
            until: self.until.duplicate()?,
            priority: self.priority.duplicate()?,
            project: self.project.duplicate()?,
            assignee: self.assignee.duplicate()?,
            status: self.status.duplicate()?,
        })
    }
}
