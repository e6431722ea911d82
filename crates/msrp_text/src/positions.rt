//! Plan text, record by record: what may follow, and the plan so far.
ghost use Rattle.std.specs.Prelude.{◌≡◌};
ghost use Rattle.msrp_plan.specs.Common.{Some, None, Ok, OnOk, true, empty_plan, units_of, with_release, with_resource, with_task, with_units};
ghost use Rattle.std.specs.Result.{result_and};
ghost use Rattle.csv.specs.Records.{fields_of};
ghost use Rattle.msrp_plan.specs.Building.{IsJudged};
ghost use Rattle.msrp_text.specs.Fields.{name_at};
ghost use Rattle.msrp_text.specs.Reading.{body_fault, cores_fault, is_lock_word, is_op_word, list_fault, listed_record_fault, listed_told, number_told, op_record_fault, release_record_fault, resource_record_fault, resource_told, step_told, task_record_fault, task_told, ticks_fault, version_fault, version_told, with_list_record, with_record};
ghost use Rattle.msrp_text.specs.Positions.{IsTaken, numbered_step, position_fault, position_plan, position_with, task_numbers};

use crate::fields::{has_word, name_at, number_at};
use csv::ByteRecord;
use msrp_plan::limits::MOST_CORES;
use msrp_plan::{CoreId, Plan, PlanBuilder, PlanFault, ResId, Step, TextVersion};
use std::alloc::Global;

/// What a reader expects between two records.
#[derive(Drop)]
pub(crate) enum Position {
    /// The version is next.
    Version,
    /// The number of cores is next, in a text of that version.
    Cores(TextVersion),
    /// The number of ticks is next, for this many cores.
    Ticks(TextVersion, u32),
    /// Resources, tasks, releases and units may follow, and the end.
    Body(TextVersion, PlanBuilder),
}

// The first record.
fn read_version(row: &ByteRecord) -> Result<Position, PlanFault>
    ensures { IsTaken (version_fault (Some (fields_of row.now))) (Position.Cores (version_told (fields_of row.now))) result }
{
    if row.len() != 2 || !has_word(row, 0, b"msrp") {
        Err(PlanFault::Version)
    } else if has_word(row, 1, b"2") {
        Ok(Position::Cores(TextVersion::V2))
    } else if has_word(row, 1, b"1") {
        Ok(Position::Cores(TextVersion::V1))
    } else {
        Err(PlanFault::Version)
    }
}

// The second record. The number of cores is checked here, the number of ticks by the builder.
fn read_cores(version: TextVersion, row: &ByteRecord) -> Result<Position, PlanFault>
    ensures { IsTaken (cores_fault (Some (fields_of row.now))) (Position.Ticks version (number_told (fields_of row.now) 1)) result }
{
    if !has_word(row, 0, b"cores") {
        return Err(PlanFault::OutOfPlace);
    }
    if row.len() != 2 {
        return Err(PlanFault::FieldCount);
    }
    match number_at(row, 1) {
        None => Err(PlanFault::Number),
        Some(cores) if (1..=MOST_CORES).contains(&cores) => Ok(Position::Ticks(version, cores)),
        Some(_) => Err(PlanFault::Limit),
    }
}

// The third record.
fn read_ticks(
    alloc: Global,
    version: TextVersion,
    cores: u32,
    row: &ByteRecord,
) -> Result<Position, PlanFault>
    ensures { IsTaken (ticks_fault cores (Some (fields_of row.now))) (Position.Body version (empty_plan cores (number_told (fields_of row.now) 1))) result }
{
    if !has_word(row, 0, b"ticks") {
        return Err(PlanFault::OutOfPlace);
    }
    if row.len() != 2 {
        return Err(PlanFault::FieldCount);
    }
    match number_at(row, 1) {
        None => Err(PlanFault::Number),
        Some(ticks) => Ok(Position::Body(version, PlanBuilder::new(alloc, cores, ticks)?)),
    }
}

// A new resource.
fn read_resource(builder: &mut PlanBuilder, row: &ByteRecord) -> Result<(), PlanFault>
    ensures judged { IsJudged (resource_record_fault builder.old (fields_of row.now)) result }
    ensures added { OnOk result (builder.new ≡ with_resource builder.old (name_at (fields_of row.now) 1)) }
{
    if builder.tasks() != 0 {
        return Err(PlanFault::OutOfPlace);
    }
    if row.len() != 2 {
        return Err(PlanFault::FieldCount);
    }
    builder.resource(name_at(row, 1))?;
    Ok(())
}

#[derive(Clone, Copy)]
struct TaskNumbers {
    core: u32,
    period: u32,
    deadline: u32,
    offset: u32,
}

// The numbers of a task's record, if all four are numbers.
fn task_numbers(row: &ByteRecord) -> Option<TaskNumbers>
    ensures { result ≡ task_numbers (fields_of row.now) }
{
    Some(TaskNumbers {
        core: number_at(row, 2)?,
        period: number_at(row, 3)?,
        deadline: number_at(row, 4)?,
        offset: number_at(row, 5)?,
    })
}

// A new task.
fn read_task(builder: &mut PlanBuilder, row: &ByteRecord) -> Result<(), PlanFault>
    ensures judged { IsJudged (task_record_fault builder.old (fields_of row.now)) result }
    ensures added { OnOk result (builder.new ≡ with_task builder.old (task_told (fields_of row.now))) }
{
    if row.len() != 6 {
        return Err(PlanFault::FieldCount);
    }
    match task_numbers(row) {
        None => Err(PlanFault::Number),
        Some(numbers) => {
            builder.task(
                name_at(row, 1),
                CoreId(numbers.core),
                numbers.period,
                numbers.deadline,
                numbers.offset,
            )?;
            Ok(())
        }
    }
}

/// The resource of a name. An undeclared one gets the greatest number, which the builder refuses.
pub(crate) fn resource_told(builder: &PlanBuilder, name: &str) -> ResId
    ensures { result ≡ resource_told builder.now name.now }
{
    builder.res_of(name).unwrap_or(ResId(u32::MAX))
}

// The step of an operation's record, if its second field is one of the three words.
fn step_told(builder: &PlanBuilder, row: &ByteRecord) -> Option<Step>
    requires { is_op_word (fields_of row.now) ≡ true }
    ensures { result ≡ numbered_step builder.now (fields_of row.now) }
{
    if has_word(row, 1, b"run") {
        Some(Step::Run(number_at(row, 2)?))
    } else if has_word(row, 1, b"lock") {
        Some(Step::Lock(resource_told(builder, name_at(row, 2))))
    } else {
        Some(Step::Unlock(resource_told(builder, name_at(row, 2))))
    }
}

// Whether an operation's record is of a lock or an unlock.
fn is_lock_word(row: &ByteRecord) -> bool
    ensures { result ≡ is_lock_word (fields_of row.now) }
{
    has_word(row, 1, b"lock") || has_word(row, 1, b"unlock")
}

// Whether an operation's record has one of the three words.
fn is_op_word(row: &ByteRecord) -> bool
    ensures { result ≡ is_op_word (fields_of row.now) }
{
    has_word(row, 1, b"run") || is_lock_word(row)
}

// Adds units to the newest task.
fn read_op(builder: &mut PlanBuilder, row: &ByteRecord) -> Result<(), PlanFault>
    ensures judged { IsJudged (op_record_fault builder.old (fields_of row.now)) result }
    ensures added { OnOk result (builder.new ≡ with_units builder.old (units_of (step_told builder.old (fields_of row.now)))) }
{
    if builder.tasks() == 0 {
        return Err(PlanFault::OutOfPlace);
    }
    if row.len() < 2 {
        return Err(PlanFault::FieldCount);
    }
    if !is_op_word(row) {
        return Err(PlanFault::OutOfPlace);
    }
    if row.len() != 3 {
        return Err(PlanFault::FieldCount);
    }
    match step_told(builder, row) {
        None => Err(PlanFault::Number),
        Some(step) => builder.op(step),
    }
}

// A new task with a list of releases.
fn read_listed(builder: &mut PlanBuilder, row: &ByteRecord) -> Result<(), PlanFault>
    ensures judged { IsJudged (listed_record_fault builder.old (fields_of row.now)) result }
    ensures added { OnOk result (builder.new ≡ with_task builder.old (listed_told (fields_of row.now))) }
{
    if row.len() != 4 {
        return Err(PlanFault::FieldCount);
    }
    match (number_at(row, 2), number_at(row, 3)) {
        (Some(core), Some(deadline)) => {
            builder.listed(name_at(row, 1), CoreId(core), deadline)?;
            Ok(())
        }
        _ => Err(PlanFault::Number),
    }
}

// Adds a release to the newest task.
fn read_release(builder: &mut PlanBuilder, row: &ByteRecord) -> Result<(), PlanFault>
    ensures judged { IsJudged (release_record_fault builder.old (fields_of row.now)) result }
    ensures added { OnOk result (builder.new ≡ with_release builder.old (number_told (fields_of row.now) 1)) }
{
    if !builder.takes_releases() {
        return Err(PlanFault::OutOfPlace);
    }
    if row.len() != 2 {
        return Err(PlanFault::FieldCount);
    }
    match number_at(row, 1) {
        None => Err(PlanFault::Number),
        Some(tick) => builder.release(tick),
    }
}

// A record of a release list, which only version 2 has.
fn read_list_record(
    version: TextVersion,
    builder: &mut PlanBuilder,
    row: &ByteRecord,
) -> Result<(), PlanFault>
    ensures judged { IsJudged (list_fault version builder.old (fields_of row.now)) result }
    ensures added { OnOk result (builder.new ≡ with_list_record builder.old (fields_of row.now)) }
{
    match version {
        TextVersion::V1 => Err(PlanFault::OutOfPlace),
        TextVersion::V2 => if has_word(row, 0, b"listed") {
            read_listed(builder, row)
        } else if has_word(row, 0, b"release") {
            read_release(builder, row)
        } else {
            Err(PlanFault::OutOfPlace)
        },
    }
}

// A record after the first three: a resource, a task, or units or a release of the newest one.
fn read_record(
    version: TextVersion,
    builder: &mut PlanBuilder,
    row: &ByteRecord,
) -> Result<(), PlanFault>
    ensures judged { IsJudged (body_fault version builder.old (Some (fields_of row.now))) result }
    ensures added { OnOk result (builder.new ≡ with_record builder.old (fields_of row.now)) }
{
    if has_word(row, 0, b"resource") {
        read_resource(builder, row)
    } else if has_word(row, 0, b"task") {
        read_task(builder, row)
    } else if has_word(row, 0, b"op") {
        read_op(builder, row)
    } else {
        read_list_record(version, builder, row)
    }
}

/// Reads one more record, in place. After a refusal the position means nothing.
#[tactic(auto, unfolding(crate::specs::Positions::position_fault, crate::specs::Positions::position_with))]
pub(crate) fn advance(
    alloc: Global,
    position: &mut Position,
    row: &ByteRecord,
) -> Result<(), PlanFault>
    ensures { IsTaken (position_fault position.old (Some (fields_of row.now))) (position_with position.old (fields_of row.now)) (result_and result (Ok position.new)) }
{
    let next = match position {
        Position::Version => read_version(row)?,
        Position::Cores(version) => read_cores(*version, row)?,
        Position::Ticks(version, cores) => read_ticks(alloc, *version, *cores, row)?,
        Position::Body(version, builder) => return read_record(*version, builder, row),
    };
    *position = next;
    Ok(())
}

/// The plan at the end of the records.
#[tactic(auto, unfolding(crate::specs::Positions::position_fault, crate::specs::Positions::position_plan))]
pub(crate) fn plan_at_end(position: Position) -> Result<Plan, PlanFault>
    ensures { IsTaken (position_fault position None) (position_plan position) result }
{
    match position {
        Position::Version => Err(PlanFault::Version),
        Position::Cores(_) | Position::Ticks(..) => Err(PlanFault::OutOfPlace),
        Position::Body(_, builder) => builder.finish().map_err(|(_, fault)| fault),
    }
}
