//! The auditor, event by event.
ghost use Rattle.std.specs.Prelude.{◌≡◌, ◌++◌, ◌∷◌};
ghost use Rattle.msrp_plan.specs.Common.{[], List, IfOk, Some, None, Ok, Err};
ghost use Rattle.msrp_events.specs.Changes.{idle_core, state_with};
ghost use Rattle.msrp_events.specs.Findings.{finding_in, finding_of};
ghost use Rattle.msrp_events.specs.declared.events.Event.{Event as LogEvent};
ghost use Rattle.msrp_events.specs.declared.findings.Finding.{Finding as Found};
ghost use Rattle.msrp_event_audit.specs.Auditors.{HasFed, answer_of};
ghost use Rattle.msrp_event_audit.specs.StartStates.{CanStore, IsFactOf, with_fact};

use crate::changes::apply;
use crate::facts::{Fact, Impossible, lacking, problem_of, store};
use crate::findings::finding_of;
use crate::states::State;
use msrp_events::{CoreLog, Event, Finding, Tolerances};
use msrp_plan::Memory;
use msrp_system::System;
use std::alloc::Global;
use std::marker::Model;

/// Judges the events of a kernel's log as they come.
///
/// It stores the jobs that are released and have not ended, and a few numbers for each core,
/// resource and task. It
/// reports the first rule that an event violates, or the first thing that the log lacks.
#[derive(Drop)]
pub struct LogAuditor<'a> {
    pub(crate) system: &'a System,
    pub(crate) tolerances: Tolerances,
    pub(crate) state: State,
    pub(crate) finding: Option<Finding>,
}

impl<'a> Model for LogAuditor<'a> {
    ghost use Rattle.msrp_event_audit.specs.Auditors.{AuditorModel};

    ghost Value = { AuditorModel };

    ghost use Rattle.msrp_event_audit.specs.Auditors.{auditor_view, IsAuditorView};

    ghost view = { auditor_view };

    ghost invariant = { IsAuditorView };
}

// A core before its log begins.
fn idle_core() -> CoreLog
    ensures { result ≡ idle_core }
{
    CoreLog {
        booted: false,
        time: 0,
        number: None,
        run: None,
        since: None,
        acted: None,
    }
}

impl<'a> LogAuditor<'a> {
    /// An auditor before the first event. All memory that it ever needs is taken here: room for as
    /// many jobs as the
    /// tolerances allow to be released and not ended, and for each core, resource and task. It is
    /// [`Memory`] only
    /// where that was refused.
    pub fn with_room(
        alloc: Global,
        system: &'a System,
        tolerances: Tolerances,
    ) -> Result<LogAuditor<'a>, Memory>
        ensures system { IfOk result (λ auditor. auditor.system ≡ system.now) }
        ensures tolerances { IfOk result (λ auditor. auditor.tolerances ≡ tolerances) }
        ensures fed { IfOk result (λ auditor. HasFed auditor []) }
        ensures none { IfOk result (λ auditor. auditor.finding ≡ None) }
    {
        let jobs = Vec::with_capacity(alloc, tolerances.backlog as usize)?;
        let cores = vec![in alloc; idle_core(); system.cores() as usize]?;
        let free = vec![in alloc; None; system.resources() as usize]?;
        let next = vec![in alloc; 0; system.tasks() as usize]?;
        Ok(LogAuditor {
            system,
            tolerances,
            state: State {
                jobs,
                cores,
                free,
                next,
                stopped: false,
            },
            finding: None,
        })
    }

    /// One fact more of the state with which the log begins, before any event; or why no state has
    /// it. It takes no memory.
    pub fn assume(&mut self, fact: Fact) -> Result<(), Impossible>
        ensures system { self.new.system ≡ self.old.system }
        ensures tolerances { self.new.tolerances ≡ self.old.tolerances }
        ensures finding { self.new.finding ≡ self.old.finding }
        ensures state { result ≡ Ok tt → self.new.state ≡ with_fact self.old.state fact }
    {
        match problem_of(self.system, self.tolerances, &self.state, fact) {
            Some(why) => Err(why),
            None => {
                self.note(fact);
                Ok(())
            }
        }
    }

    // A fact that a state can have.
    fn note(&mut self, fact: Fact)
        requires can { CanStore fact self.old.state self.old.tolerances.backlog }
        requires known { IsFactOf self.old.system fact }
        ensures { self.new ≡ record self.old { state = with_fact self.old.state fact } }
    {
        store(&mut self.state, fact);
    }

    /// Why the facts so far describe no state, if they don't.
    pub fn lacking(&self) -> Option<Impossible> {
        lacking(self.system, &self.state)
    }

    /// The next event: what the events so far show first, if they show anything. After that the
    /// answer stays the
    /// same. It takes no memory.
    pub fn feed(&mut self, event: Event) -> Result<(), Finding>
        ensures system { self.new.system ≡ self.old.system }
        ensures tolerances { self.new.tolerances ≡ self.old.tolerances }
        ensures fed { (events : List LogEvent) → HasFed self.old events → HasFed self.new (events ++ event ∷ []) }
        ensures answer { (events : List LogEvent) → HasFed self.old events → result ≡ answer_of (finding_in self.old.system self.old.tolerances (events ++ event ∷ [])) }
        ensures none { result ≡ Ok tt → self.new.finding ≡ None }
        ensures same { (found : Found) → self.old.finding ≡ Some found → result ≡ Err found }
        ensures kept { (found : Found) → result ≡ Err found → self.new.state ≡ self.old.state }
    {
        match self.finding {
            Some(finding) => Err(finding),
            None => self.feed_next(event),
        }
    }

    // The next event, where those before showed nothing.
    fn feed_next(&mut self, event: Event) -> Result<(), Finding>
        requires { self.old.finding ≡ None }
        ensures system { self.new.system ≡ self.old.system }
        ensures tolerances { self.new.tolerances ≡ self.old.tolerances }
        ensures fed { (events : List LogEvent) → HasFed self.old events → HasFed self.new (events ++ event ∷ []) }
        ensures answer { (events : List LogEvent) → HasFed self.old events → result ≡ answer_of (finding_in self.old.system self.old.tolerances (events ++ event ∷ [])) }
        ensures none { result ≡ Ok tt → self.new.finding ≡ None }
        ensures kept { (found : Found) → result ≡ Err found → self.new.state ≡ self.old.state }
    {
        match self.shows(event) {
            Some(finding) => {
                self.store(finding);
                Err(finding)
            }
            None => {
                self.take(event);
                Ok(())
            }
        }
    }

    // What the event shows after those that showed nothing.
    fn shows(&self, event: Event) -> Option<Finding>
        ensures { result ≡ finding_of self.now.system self.now.tolerances self.now.state event }
    {
        finding_of(self.system, self.tolerances, &self.state, event)
    }

    // The first finding.
    fn store(&mut self, finding: Finding)
        ensures { self.new ≡ record self.old { finding = Some finding } }
    {
        self.finding = Some(finding);
    }

    // The event, which shows nothing.
    fn take(&mut self, event: Event)
        requires { finding_of self.old.system self.old.tolerances self.old.state event ≡ None }
        ensures { self.new ≡ record self.old { state = state_with self.old.system self.old.state event } }
    {
        if !self.state.stopped {
            apply(self.system, &mut self.state, event);
        }
    }

    /// What the events so far show first, if they show anything. It changes nothing, so that events
    /// may be fed after
    /// it.
    pub fn end(&self) -> Result<(), Finding>
        ensures { (events : List LogEvent) → HasFed self.now events → result ≡ answer_of (finding_in self.now.system self.now.tolerances events) }
    {
        match self.finding {
            Some(finding) => Err(finding),
            None => Ok(()),
        }
    }
}
