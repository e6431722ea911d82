//! How long a job is blocked: by at most one outermost section of one later job.
ghost use Rattle.std.specs.Prelude.{◌≡◌, List, [], Some, take, true};
ghost use Rattle.msrp_plan.specs.Plan.{PlanModel, task_at};
ghost use Rattle.msrp_plan.specs.Choice.{running};
ghost use Rattle.msrp_plan.specs.Runs.{IsRunStart};
ghost use Rattle.msrp_plan.specs.WellFormed.{IsPlan};
ghost use Rattle.msrp_plan.specs.Bounds.{spin_bound, out, blocked_bound};
ghost use Rattle.msrp_plan.specs.Blocking.{BlockedByBegunSections, BlockedByOneSection, BlockedSinceRelease, BoundedSections, BoundedBlocking, IsBegun, blocked, blocks, count_after, continues, first_later, is_amid};
ghost use Rattle.msrp_plan.specs.Laws.{KeepsLaws};
ghost use Rattle.msrp_plan.specs.Examples.Notation.{job, run};
ghost use Rattle.msrp_plan.specs.Examples.BlockedHead as blocked_head;
ghost use Rattle.msrp_plan.specs.Examples.GlobalInsideLocal as global_inside_local;
ghost use Rattle.msrp_plan.specs.Examples.LevelsOverThePlan as levels_over_the_plan;
ghost use Rattle.msrp_plan.specs.Examples.RaisedWhileHolding as raised_while_holding;
ghost use Rattle.msrp_plan.specs.Examples.TwoSections as two_sections;
ghost use Rattle.msrp_plan.specs.Examples.UnevenSections as uneven_sections;
ghost use Rattle.msrp_plan.specs.declared.rows.Row.{Row};

/// If a row is of a later job while a job of its core is released and unfinished, it is of the
/// first of the started, unfinished jobs. That job has a longer relative deadline, and is in an
/// outermost section that it began before the release.
pub fn blocked_by_begun_sections()
    ensures { (plan : PlanModel) (rows : List Row) → IsPlan plan → IsRunStart plan rows → BlockedByBegunSections plan rows }
{}

/// All rows that block a job are of one job, in one of its outermost sections.
pub fn blocked_by_one_section()
    ensures { (plan : PlanModel) (rows : List Row) → IsPlan plan → IsRunStart plan rows → BlockedByOneSection plan rows }
{}

/// An outermost section of a job has, after its first row, at most as many rows as the plan's `out`
/// of its task: the units from the lock to the unlock, and for each request of a global resource in
/// it (the outermost lock too) 1 plus the bound on spinning.
pub fn bounded_sections()
    ensures { (plan : PlanModel) (rows : List Row) → IsPlan plan → IsRunStart plan rows → BoundedSections plan rows }
{}

/// Bounded blocking: the rows of later jobs of its core, from a job's release to its end, number at
/// most the greatest `out` of the core's tasks with a longer relative deadline (Baker 1991: one
/// outermost section of a lower job; the terms for requests are this project's own).
pub fn bounded_blocking()
    ensures { (plan : PlanModel) (rows : List Row) → IsPlan plan → IsRunStart plan rows → BoundedBlocking plan rows }
{}

/// A job's blocker is known at its release: the first of the later jobs of its core that are
/// started and unfinished then. Exactly the rows of that job before the blocked job starts count.
/// So one pass can count how long jobs are blocked.
pub fn blocked_since_release()
    ensures { (plan : PlanModel) (rows : List Row) → IsPlan plan → IsRunStart plan rows → BlockedSinceRelease plan rows }
{}

/// A worked run with the longest possible blocking: the release comes right after the first row of
/// the longest section. A job released later is blocked by the rest of that section.
pub fn blocked_as_long_as_can_be()
    ensures laws { KeepsLaws blocked_head.plan blocked_head.rows }
    ensures first { blocks blocked_head.plan (job 1 0) (take 1 blocked_head.rows) (run 1 0 (job 0 0)) ≡ true }
    ensures runs { running blocked_head.plan 0 (take 1 blocked_head.rows) ≡ Some (job 0 0) }
    ensures known { first_later blocked_head.plan (take 1 blocked_head.rows) (job 1 0) ≡ Some (job 0 0) }
    ensures amid { is_amid blocked_head.plan (take 1 blocked_head.rows) (job 0 0) ≡ true }
    ensures begun { IsBegun blocked_head.plan (take 1 blocked_head.rows) (job 0 0) 1 }
    ensures begun_no_earlier { ¬ IsBegun blocked_head.plan (take 1 blocked_head.rows) (job 0 0) 0 }
    ensures section { count_after (continues blocked_head.plan (job 0 0) 0) [] blocked_head.rows ≡ out blocked_head.plan (task_at blocked_head.plan 0) }
    ensures longest { blocked blocked_head.plan blocked_head.rows (job 1 0) ≡ blocked_bound blocked_head.plan (task_at blocked_head.plan 1) }
    ensures rest { blocked blocked_head.plan blocked_head.rows (job 2 0) ≡ 2 }
{}

/// A worked run in which a global section blocks a job: in 4 rows of 7, as nobody else requests it.
pub fn blocked_by_a_global_section()
    ensures laws { KeepsLaws raised_while_holding.plan raised_while_holding.rows }
    ensures section { count_after (continues raised_while_holding.plan (job 0 0) 0) [] raised_while_holding.rows ≡ 4 }
    ensures rows { blocked raised_while_holding.plan raised_while_holding.rows (job 1 0) ≡ 4 }
    ensures bound { blocked_bound raised_while_holding.plan (task_at raised_while_holding.plan 1) ≡ 7 }
{}

/// The bounds of worked plans. For a local section `out` counts the units from the lock to the
/// unlock; for a global one also the longest wait of the request. Only tasks of the same core with
/// a longer relative deadline block a task.
pub fn bounds_on_blocking()
    ensures local { out blocked_head.plan (task_at blocked_head.plan 0) ≡ 13 }
    ensures shorter { out blocked_head.plan (task_at blocked_head.plan 1) ≡ 2 }
    ensures without_section { out blocked_head.plan (task_at blocked_head.plan 2) ≡ 0 }
    ensures longest_deadline { blocked_bound blocked_head.plan (task_at blocked_head.plan 0) ≡ 0 }
    ensures by_one { blocked_bound blocked_head.plan (task_at blocked_head.plan 1) ≡ 13 }
    ensures by_the_longest { blocked_bound blocked_head.plan (task_at blocked_head.plan 2) ≡ 13 }
    ensures spins { spin_bound raised_while_holding.plan 0 0 ≡ 2 }
    ensures global { out raised_while_holding.plan (task_at raised_while_holding.plan 0) ≡ 7 }
    ensures global_section { blocked_bound raised_while_holding.plan (task_at raised_while_holding.plan 1) ≡ 7 }
    ensures of_core_1 { out raised_while_holding.plan (task_at raised_while_holding.plan 2) ≡ 7 }
    ensures other_core { blocked_bound levels_over_the_plan.plan (task_at levels_over_the_plan.plan 2) ≡ 0 }
{}

/// Of a task's outermost sections only the longest counts, in either order, never their sum.
pub fn bounds_of_two_sections()
    ensures longest_first { out two_sections.plan (task_at two_sections.plan 0) ≡ 4 }
    ensures blocked { blocked_bound two_sections.plan (task_at two_sections.plan 1) ≡ 4 }
    ensures longest_last { out uneven_sections.plan (task_at uneven_sections.plan 0) ≡ 7 }
{}

/// A request inside an outermost section adds its wait once.
pub fn bounds_of_nested_sections()
    ensures inner { out global_inside_local.plan (task_at global_inside_local.plan 0) ≡ 11 }
    ensures blocked { blocked_bound global_inside_local.plan (task_at global_inside_local.plan 1) ≡ 11 }
    ensures second_resource { out global_inside_local.plan (task_at global_inside_local.plan 2) ≡ 7 }
{}
