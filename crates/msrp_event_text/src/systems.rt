//! The text of a system: `msrp-system,1`, then its cores, its resources, and its tasks with what
//! they lock.

use crate::numbers::long_number_at;
use csv::ByteRecord;
use msrp_plan::{CoreId, Op, ResId, TaskId};
use msrp_system::{MOST_CORES, MOST_RESOURCES, MOST_STEPS, MOST_TASKS, System, SystemFault, Task};
use msrp_text::fields::{has_word, name_at, number_at};
use msrp_text::records::{RecordReader, Stopped};
use std::alloc::{AllocError, AllocFailed, Global};
use std::io::Read;
use thiserror::Error;

/// Why a record of a system's text is refused.
#[derive(Clone, Copy, Debug, Error, PartialEq, Eq)]
pub enum SystemRefusal {
    /// It isn't `msrp-system,1`, where the text begins.
    #[error("a system's text begins with msrp-system,1")]
    Head,
    /// It is none of a system, has another number of fields, or stands where it can't.
    #[error("expected cores,N, then resource,NAME, then task,NAME,CORE,DEADLINE with op,lock,NAME and op,unlock,NAME")]
    Record,
    /// A number isn't one, or is out of its range.
    #[error("a number is missing or out of range")]
    Number,
    /// A name isn't 1 to 64 letters, digits, underscores, dashes and dots.
    #[error("a name must have 1 to 64 letters, digits, underscores, dashes and dots")]
    Name,
    /// A task or a resource has that name.
    #[error("the name stands for two tasks or two resources")]
    Twice,
    /// The core isn't one of the system.
    #[error("the core must be below the number of cores")]
    Core,
    /// The system has no resource of that name.
    #[error("the system has no such resource")]
    Resource,
    /// A task unlocks what it doesn't hold, locks what it holds, or ends with a lock.
    #[error("locks and unlocks of a task must match")]
    Unmatched,
    /// There are more resources, tasks or steps of a task than a system may have.
    #[error("a system has at most 64 cores, 1,024 tasks, 1,024 resources and 4,096 steps of a task")]
    Limit,
    /// A task locks a global resource while it holds another global one.
    #[error("a task must not lock a global resource while it holds another one")]
    Nested,
}

/// Why a text gave no system.
#[derive(Clone, Copy, Debug, Error, PartialEq, Eq)]
pub enum SystemError {
    /// A record is refused, by its number, counted from 1. The end of the text counts as one more
    /// record.
    #[error("record {number}: {refusal}")]
    At { refusal: SystemRefusal, number: u64 },
    /// A read failed.
    #[error("a read failed")]
    Read,
    /// Memory was refused.
    #[error("memory was refused")]
    Memory,
}

// Why a record isn't taken: it is refused, or memory was.
#[derive(Clone, Copy, Debug, PartialEq, Eq)]
enum Untaken {
    Refused(SystemRefusal),
    Memory,
}

impl From<AllocError> for Untaken {
    fn from(_refused: AllocError) -> Untaken {
        Untaken::Memory
    }
}

impl<T: Drop> From<AllocFailed<T>> for Untaken {
    fn from(_refused: AllocFailed<T>) -> Untaken {
        Untaken::Memory
    }
}

impl From<Stopped> for SystemError {
    fn from(why: Stopped) -> SystemError {
        match why {
            Stopped::Read => SystemError::Read,
            Stopped::Memory => SystemError::Memory,
        }
    }
}

// What the records so far say. No core yet: their number isn't known.
#[derive(Drop)]
struct Draft {
    alloc: Global,
    cores: u32,
    resources: Vec<String>,
    tasks: Vec<Task>,
}

// Whether a name is one.
fn is_name(name: &str) -> bool {
    1 <= name.len()
        && name.len() <= 64
        && name.as_bytes().iter().all(|byte| byte.is_ascii_alphanumeric()
            || matches!(*byte, b'_' | b'-' | b'.'))
}

// The place of a name among the resources.
fn resource_at(resources: &[String], name: &str) -> Option<usize> {
    resources.iter().position(|other| other.as_str() == name)
}

fn has_task(tasks: &[Task], name: &str) -> bool {
    tasks.iter().any(|task| task.name.as_str() == name)
}

// Whether the last lock or unlock of the resource among these steps is a lock.
fn is_held(steps: &[Op], res: ResId) -> bool {
    let mut held = false;
    for step in steps {
        match step {
            Op::Lock(other) if other.0 == res.0 => held = true,
            Op::Unlock(other) if other.0 == res.0 => held = false,
            _ => {}
        }
    }
    held
}

// Whether a resource is locked at the end of these steps.
fn ends_with_lock(steps: &[Op]) -> bool {
    steps.iter().any(|step| match step {
        Op::Lock(res) => is_held(steps, *res),
        _ => false,
    })
}

impl Draft {
    // Whether the last task is over: it holds nothing.
    fn is_matched(&self) -> bool {
        match self.tasks.last() {
            Some(task) => !ends_with_lock(&task.steps),
            None => true,
        }
    }

    fn set_cores(&mut self, fields: &ByteRecord) -> Result<(), Untaken> {
        if fields.len() != 2 || self.cores != 0 {
            return Err(Untaken::Refused(SystemRefusal::Record));
        }
        match number_at(fields, 1) {
            Some(cores) if 1 <= cores && cores <= MOST_CORES => {
                self.cores = cores;
                Ok(())
            }
            _ => Err(Untaken::Refused(SystemRefusal::Number)),
        }
    }

    fn add_resource(&mut self, fields: &ByteRecord) -> Result<(), Untaken> {
        let name = name_at(fields, 1);
        if fields.len() != 2 || self.cores == 0 || !self.tasks.is_empty() {
            Err(Untaken::Refused(SystemRefusal::Record))
        } else if !is_name(name) {
            Err(Untaken::Refused(SystemRefusal::Name))
        } else if resource_at(&self.resources, name).is_some() {
            Err(Untaken::Refused(SystemRefusal::Twice))
        } else if self.resources.len() >= MOST_RESOURCES {
            Err(Untaken::Refused(SystemRefusal::Limit))
        } else {
            let name = String::from_str(self.alloc, name)?;
            self.resources.push(name)?;
            Ok(())
        }
    }

    // Why the record of a task is refused, if it is.
    fn task_refusal(&self, fields: &ByteRecord) -> Option<SystemRefusal> {
        let name = name_at(fields, 1);
        if fields.len() != 4 || self.cores == 0 {
            Some(SystemRefusal::Record)
        } else if !self.is_matched() {
            Some(SystemRefusal::Unmatched)
        } else if !is_name(name) {
            Some(SystemRefusal::Name)
        } else if has_task(&self.tasks, name) {
            Some(SystemRefusal::Twice)
        } else if self.tasks.len() >= MOST_TASKS {
            Some(SystemRefusal::Limit)
        } else {
            None
        }
    }

    fn add_task(&mut self, fields: &ByteRecord) -> Result<(), Untaken> {
        if let Some(refusal) = self.task_refusal(fields) {
            return Err(Untaken::Refused(refusal));
        }
        match (number_at(fields, 2), long_number_at(fields, 3)) {
            (Some(core), Some(_)) if core >= self.cores => Err(Untaken::Refused(
                SystemRefusal::Core,
            )),
            (Some(core), Some(deadline)) if deadline > 0 => {
                let task = Task {
                    name: String::from_str(self.alloc, name_at(fields, 1))?,
                    core: CoreId(core),
                    deadline,
                    steps: Vec::new(self.alloc),
                };
                self.tasks.push(task)?;
                Ok(())
            }
            _ => Err(Untaken::Refused(SystemRefusal::Number)),
        }
    }

    // A lock or an unlock of the last task.
    fn add_step(&mut self, fields: &ByteRecord) -> Result<(), Untaken> {
        let is_lock = has_word(fields, 1, b"lock");
        if fields.len() != 3 || (!is_lock && !has_word(fields, 1, b"unlock")) {
            return Err(Untaken::Refused(SystemRefusal::Record));
        }
        let Some(task) = self.tasks.last_mut() else {
            return Err(Untaken::Refused(SystemRefusal::Record));
        };
        let Some(place) = resource_at(&self.resources, name_at(fields, 2)) else {
            return Err(Untaken::Refused(SystemRefusal::Resource));
        };
        if task.steps.len() >= MOST_STEPS || place >= MOST_RESOURCES {
            return Err(Untaken::Refused(SystemRefusal::Limit));
        }
        let res = ResId(place as u32);
        if is_held(&task.steps, res) == is_lock {
            return Err(Untaken::Refused(SystemRefusal::Unmatched));
        }
        task.steps.push(if is_lock {
            Op::Lock(res)
        } else {
            Op::Unlock(res)
        })?;
        Ok(())
    }

    // One more record.
    fn add(&mut self, fields: &ByteRecord) -> Result<(), Untaken> {
        if has_word(fields, 0, b"cores") {
            self.set_cores(fields)
        } else if has_word(fields, 0, b"resource") {
            self.add_resource(fields)
        } else if has_word(fields, 0, b"task") {
            self.add_task(fields)
        } else if has_word(fields, 0, b"op") {
            self.add_step(fields)
        } else {
            Err(Untaken::Refused(SystemRefusal::Record))
        }
    }
}

// The refusal of a record by its number.
fn at(untaken: Untaken, number: u64) -> SystemError {
    match untaken {
        Untaken::Refused(refusal) => SystemError::At { refusal, number },
        Untaken::Memory => SystemError::Memory,
    }
}

// The place of the first lock of a global resource among these steps while another one is held.
fn nested_lock(system: &System, steps: &[Op]) -> Option<usize> {
    let mut held = 0_u32;
    for (place, step) in steps.iter().enumerate() {
        match *step {
            Op::Lock(res) if system.is_global(res) => {
                if held > 0 {
                    return Some(place);
                }
                held = 1;
            }
            Op::Unlock(res) if system.is_global(res) => held = 0,
            _ => {}
        }
    }
    None
}

// The record of the first such lock. The tasks begin after the head, the cores and the resources.
fn nested_record(system: &System) -> Option<u64> {
    let mut task_record = u64::from(system.resources()).saturating_add(3);
    for t in 0..system.tasks() {
        let steps = system.steps(TaskId(t));
        if let Some(place) = nested_lock(system, steps) {
            return Some(task_record.saturating_add(1).saturating_add(place as u64));
        }
        task_record = task_record
            .saturating_add(1)
            .saturating_add(steps.len() as u64);
    }
    None
}

// The system of all records, after this many were read.
fn system_at_end(alloc: Global, draft: Draft, number: u64) -> Result<System, SystemError> {
    if draft.cores == 0 {
        return Err(at(Untaken::Refused(SystemRefusal::Record), number));
    }
    if !draft.is_matched() {
        return Err(at(Untaken::Refused(SystemRefusal::Unmatched), number));
    }
    match System::of(alloc, draft.cores, draft.resources, draft.tasks) {
        Ok(system) => match nested_record(&system) {
            Some(record) => Err(at(Untaken::Refused(SystemRefusal::Nested), record)),
            None => Ok(system),
        },
        Err(SystemFault::Memory) => Err(SystemError::Memory),
        Err(_) => Err(at(Untaken::Refused(SystemRefusal::Limit), number)),
    }
}

fn is_head(fields: &ByteRecord) -> bool {
    fields.len() == 2 && has_word(fields, 0, b"msrp-system") && has_word(fields, 1, b"1")
}

/// The system of a text, or its first refusal.
///
/// A text is records of comma-separated fields: `msrp-system,1`, then `cores,N`, then for each
/// resource `resource,NAME`, and then for each task `task,NAME,CORE,DEADLINE`, with the relative
/// deadline in ns, and its locks and unlocks after it: `op,lock,NAME` and `op,unlock,NAME`.
pub fn read_system<R: Read + Drop>(alloc: Global, text: R) -> Result<System, SystemError> {
    let mut records = RecordReader::new(alloc, text);
    let mut fields = ByteRecord::new(alloc);
    if !records.read(&mut fields)? || !is_head(&fields) {
        return Err(at(Untaken::Refused(SystemRefusal::Head), 1));
    }
    let mut draft = Draft {
        alloc,
        cores: 0,
        resources: Vec::new(alloc),
        tasks: Vec::new(alloc),
    };
    for number in 2..u64::MAX {
        if !records.read(&mut fields)? {
            return system_at_end(alloc, draft, number);
        }
        if let Err(untaken) = draft.add(&fields) {
            return Err(at(untaken, number));
        }
    }
    Err(SystemError::Memory)
}
