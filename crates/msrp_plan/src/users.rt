//! On which cores each resource is used, found in one pass over the units of all tasks.
ghost use Rattle.std.specs.Prelude.{◌≡◌, ◌==◌, ◌||◌, ◌&&◌, ℕ, Bool};
ghost use Rattle.indexmap.specs.IndexMap.{values};
ghost use Rattle.msrp_plan.specs.Inside.Users.{AreOn, EachIsOn, are_on_two, is_used_on, is_user_on};

use crate::ids::{CoreId, ResId};
use crate::limits::MOST_RESOURCES;
use crate::tasks::Task;
use crate::units::Op;
use indexmap::IndexMap;

// The cores that use a resource: none, one, or several.
#[derive(Clone, Copy, Debug, PartialEq, Eq)]
pub(crate) enum Users {
    Nobody,
    OneCore(CoreId),
    Cores,
}

impl Users {
    // Adds a user on a core.
    fn with(self, core: CoreId) -> Users
        ensures { (on : ℕ → Bool) → AreOn on self → AreOn (λ c. on c || (core.0 == c)) result }
    {
        match self {
            Users::Nobody => Users::OneCore(core),
            Users::OneCore(only) if only == core => self,
            Users::OneCore(_) | Users::Cores => Users::Cores,
        }
    }

    pub(crate) fn are_on_two(self) -> bool
        ensures { result ≡ are_on_two self }
    {
        matches!(self, Users::Cores)
    }
}

// Adds a user of a resource, on a core. A number above the limit is ignored.
fn add_user(users: &mut [Users; MOST_RESOURCES], res: ResId, core: CoreId)
    ensures { (on : ℕ → ℕ → Bool) → EachIsOn on users.old → EachIsOn (λ g c. on g c || ((res.0 == g) && (core.0 == c))) users.new }
{
    let place = res.0 as usize;
    if place < MOST_RESOURCES {
        users[place] = users[place].with(core);
    }
}

// Adds the task as a user of each resource that it locks.
fn add_task(users: &mut [Users; MOST_RESOURCES], task: &Task)
    ensures { (on : ℕ → ℕ → Bool) → EachIsOn on users.old → EachIsOn (λ g c. on g c || is_user_on g c task.now) users.new }
{
    let units = task.lent_units();
    for place in 0..units.len() {
        if let Op::Lock(res) = units.unit(place) {
            add_user(users, res, task.core);
        }
    }
}

pub(crate) fn users_of(tasks: &IndexMap<String, Task>) -> [Users; MOST_RESOURCES]
    ensures { EachIsOn (is_used_on (values tasks.now)) result }
{
    let mut users = [Users::Nobody; MOST_RESOURCES];
    for task in tasks.values() {
        add_task(&mut users, task);
    }
    users
}
