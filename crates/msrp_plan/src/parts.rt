//! What a plan and its builder share: the numbers, and the resources and tasks by name.
ghost use Rattle.std.specs.Prelude.{◌≡◌, ◌≤◌, length};
ghost use Rattle.std.specs.Option.{option_map};
ghost use Rattle.msrp_plan.specs.Limits.{most_resources};
ghost use Rattle.msrp_plan.specs.Names.{name_position};
ghost use Rattle.msrp_plan.specs.Inside.Views.{parts_view};

use crate::ids::ResId;
use crate::tasks::Task;
use indexmap::{IndexMap, IndexSet};

// Cores, ticks, and the resources and tasks under their names, in the order of their declaration.
#[derive(Debug, Drop)]
pub(crate) struct Parts {
    pub(crate) cores: u32,
    pub(crate) ticks: u32,
    pub(crate) resources: IndexSet<String>,
    pub(crate) tasks: IndexMap<String, Task>,
}

impl Parts {
    // The resource of a name.
    pub(crate) fn res_of(&self, name: &str) -> Option<ResId>
        requires { length (parts_view self.now).resources ≤ most_resources }
        ensures { option_map (λ res. res.0) result ≡ name_position (parts_view self.now).resources name.now }
    {
        match self.resources.get_index_of(name) {
            Some(number) => Some(ResId(number as u32)),
            None => None,
        }
    }
}
