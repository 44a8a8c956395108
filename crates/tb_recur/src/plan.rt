ghost use Rattle.std.specs.Prelude.{◌≡◌, IfSome};
ghost use Rattle.tb_recur.specs.Dues.{IsStep};
ghost use Rattle.tb_recur.specs.Instances.{read_recur, plan_of};

use tb_task::{Moment, Step, Task};
use tb_values::NonEmptyText;

/// How the dues of a template's instances follow one another, and until when they are wanted.
#[derive(Clone, Copy, Debug, PartialEq, Eq)]
pub struct Plan {
    pub due: Moment,
    pub step: Step,
    pub until: Option<Moment>,
}

/// The plan of a task with a due and a readable step.
pub fn plan_of(task: &Task) -> Option<Plan>
    ensures value { result ≡ plan_of task.now }
    ensures step { IfSome result (λ p. IsStep p.step) }
{
    match (task.due, read_recur(&task.recur)) {
        (Some(due), Some(step)) => Some(Plan {
            due,
            step,
            until: task.until,
        }),
        _ => None,
    }
}

#[tactic(auto, using(crate::proofs::StepLemmas::steps_advance))]
fn read_recur(recur: &Option<NonEmptyText>) -> Option<Step>
    ensures value { result ≡ read_recur recur.now }
    ensures step { IfSome result IsStep }
{
    match recur {
        Some(text) => Step::read(text.as_str()),
        None => None,
    }
}
