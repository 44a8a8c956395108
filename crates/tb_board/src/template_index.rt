//! What is noted of a list's templates, so that one needn't go through it to see what they want.

ghost use Rattle.std.specs.Prelude.{◌≡◌, ◌+◌, ◌∷◌, ◌++◌, [], ℕ, IfOk, IfSome, List, if◌then◌else◌, length};
ghost use Rattle.tb_board.specs.InstancePlaces.{instance_places};
ghost use Rattle.tb_board.specs.TemplateIndex.{IsTemplateIndex, number_in};
ghost use Rattle.tb_task.specs.Checks.{is_recurring};
ghost use Rattle.tb_task.specs.declared.task.Task.{Task as TaskValue};

use std::alloc::{AllocError, Global};
use std::collections::BTreeMap;
use tb_task::{Task, TaskId, is_recurring_status};
use tb_values::Shared;

/// Where tasks recur, and how many instances each template has.
#[derive(Drop)]
pub struct TemplateIndex {
    /// The place of each task that recurs. A task that did and is deleted keeps its place here.
    pub(crate) places: Vec<usize>,
    pub(crate) instances: BTreeMap<TaskId, usize>,
}

impl TemplateIndex {
    pub(crate) fn new(alloc: Global) -> TemplateIndex
        ensures { IsTemplateIndex [] result }
    {
        TemplateIndex {
            places: Vec::new(alloc),
            instances: BTreeMap::new(alloc),
        }
    }

    /// The index of a list. None where a template has more instances than a number can tell.
    pub(crate) fn of(
        alloc: Global,
        tasks: &[Shared<Task>],
    ) -> Result<Option<TemplateIndex>, AllocError>
        ensures { IfOk result (λ index. IfSome index (IsTemplateIndex tasks.now)) }
    {
        let mut index = TemplateIndex::new(alloc);
        for place in 0..tasks.len() {
            index = match index.with(place, tasks[place].get())? {
                Some(index) => index,
                None => return Ok(None),
            };
        }
        Ok(Some(index))
    }

    /// The index of the list with one more task, whose place is the list's length.
    pub(crate) fn with(self, place: usize, task: &Task) -> Result<Option<TemplateIndex>, AllocError>
        ensures { IfOk result (λ index. (ts : List TaskValue)
            → IsTemplateIndex ts self → place ≡ length ts
            → IfSome index (IsTemplateIndex (ts ++ task.now ∷ []))) }
    {
        let TemplateIndex { places, instances } = self;
        let places = places_with(places, place, task)?;
        let Some(instances) = instances_with(instances, task)? else {
            return Ok(None);
        };
        Ok(Some(TemplateIndex { places, instances }))
    }

    /// The places at which a task may recur: at no other one does.
    pub fn places(&self) -> &[usize]
        ensures { result.now ≡ self.now.places.items }
    {
        self.places.as_slice()
    }

    /// How many instances a template has.
    pub fn instances_of(&self, id: TaskId) -> usize
        ensures { result ≡ number_in self.now.instances id }
    {
        number_of(&self.instances, id)
    }
}

fn places_with(mut places: Vec<usize>, place: usize, task: &Task) -> Result<Vec<usize>, AllocError>
    ensures { IfOk result (λ later. later.items
        ≡ (if is_recurring task.now.status then places.items ++ place ∷ [] else places.items)) }
{
    if is_recurring_status(task.status) {
        places.push(place)?;
    }
    Ok(places)
}

/// The numbers of instances, with the task if it is one.
fn instances_with(
    mut instances: BTreeMap<TaskId, usize>,
    task: &Task,
) -> Result<Option<BTreeMap<TaskId, usize>>, AllocError>
    ensures { IfOk result (λ later. IfSome later (λ later. (id : ℕ)
        → number_in later id
        ≡ number_in instances id + length (instance_places id (task.now ∷ [])))) }
{
    let (Some(template), Some(_)) = (task.parent, task.imask) else {
        return Ok(Some(instances));
    };
    let Some(number) = number_of(&instances, template).checked_add(1) else {
        return Ok(None);
    };
    instances.insert(template, number)?;
    Ok(Some(instances))
}

fn number_of(instances: &BTreeMap<TaskId, usize>, id: TaskId) -> usize
    ensures { result ≡ number_in instances.now id }
{
    match instances.get(&id) {
        Some(number) => *number,
        None => 0,
    }
}
