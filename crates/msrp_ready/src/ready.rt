//! The ready jobs of a core, with two calls: release up to a tick, and take the head.
ghost use Rattle.std.specs.Prelude.{◌≡◌, ◌<◌, ◌≤◌, ◌+◌, ◌-◌, ◌*◌, ◌||◌};
ghost use Rattle.msrp_plan.specs.Common.{[], ℕ, None, Some, true, false, IfOk, IfNone, IfSome, ForSome, is_job};
ghost use Rattle.msrp_plan.specs.declared.ids.JobId.{JobId as Job};
ghost use Rattle.msrp_ready.specs.Ready.{head, is_among, has_release_by, released};

use crate::calendar::{NEVER, calendar_of, release, release_at, released_to};
use crate::heap::Heap;
use crate::keyed::{Entry, first_of};
use msrp_plan::{CoreId, JobId, Memory, Plan};
use std::alloc::Global;
use std::marker::Model;

/// The released, not yet taken jobs of a core; the one with the least key is the head.
///
/// A new one has released nothing. [`release_to`](Ready::release_to) releases the jobs up to a
/// tick, and [`take_head`](Ready::take_head) takes the head, which starts in its first turn. Jobs
/// after a head that the ceiling blocks must wait too (Baker 1991, the Stack Resource Policy), so
/// only the head is ever asked for.
#[derive(Drop)]
pub struct Ready<'a> {
    plan: &'a Plan,
    core: CoreId,
    tick: Option<u32>,
    calendar: Vec<Entry>,
    next: usize,
    // The next release, after all ticks if none is left: most turns need no look at the calendar.
    coming: u64,
    heap: Heap,
}

impl<'a> Model for Ready<'a> {
    ghost use Rattle.msrp_ready.specs.Ready.{ReadyModel};

    ghost Value = { ReadyModel };

    ghost use Rattle.msrp_ready.specs.ReadyView.{ready_view, IsReadyView};

    ghost view = { ready_view };

    ghost invariant = { IsReadyView };
}

impl<'a> Ready<'a> {
    /// The ready jobs of a core before the first release, with all the memory that they will ever
    /// need; [`Memory`] only if it runs out.
    pub fn with_room(alloc: Global, plan: &'a Plan, core: CoreId) -> Result<Ready<'a>, Memory>
        ensures { IfOk result (λ ready. ready ≡ record { plan = plan.now; core = core.0; tick = None; taken = []; compared = 0 }) }
    {
        let calendar = calendar_of(alloc, plan, core)?;
        let heap = Heap::with_room(alloc, calendar.len())?;
        let coming = release_at(&calendar, 0);
        Ok(Ready {
            plan,
            core,
            tick: None,
            calendar,
            next: 0,
            coming,
            heap,
        })
    }

    /// The same jobs in memory of their own. It is [`Memory`] only where that was refused.
    pub fn copied(&self, alloc: Global) -> Result<Ready<'a>, Memory>
        ensures { IfOk result (λ ready. ready ≡ self.now) }
    {
        Ok(Ready {
            plan: self.plan,
            core: self.core,
            tick: self.tick,
            calendar: Vec::from_slice(alloc, &self.calendar)?,
            next: self.next,
            coming: self.coming,
            heap: self.heap.copied(alloc)?,
        })
    }

    /// Releases the core's jobs up to a tick, which isn't before the last one. Allocates nothing.
    pub fn release_to(&mut self, tick: u32)
        requires { ForSome self.old.tick (λ before. before ≤ tick) }
        ensures tick { self.new ≡ record self.old { tick = Some tick; compared = self.new.compared } }
        ensures at_most { self.new.compared ≤ self.old.compared + 13 * (released self.new - released self.old) }
        ensures at_least { self.old.compared ≤ self.new.compared }

        // Each job released while another is ready is compared.
        ensures counted { released self.new ≤ released self.old + 1 + (self.new.compared - self.old.compared) }
    {
        let (next, coming) = release(
            self.plan,
            &self.calendar,
            self.next,
            self.coming,
            tick,
            &mut self.heap,
        );
        self.next = next;
        self.coming = coming;
        self.tick = Some(tick);
    }

    /// Whether a job of the core is still to be released by this tick. Compares no keys.
    #[inline(always)]
    pub fn has_release_by(&self, tick: u32) -> bool
        ensures { result ≡ has_release_by self.now tick }
    {
        self.coming <= u64::from(tick)
    }

    /// The tick of the core's next release, if one is left. Compares no keys.
    #[inline(always)]
    pub fn next_release(&self) -> Option<u64>
        ensures none { IfNone result ((tick : ℕ) → has_release_by self.now tick ≡ false) }
        ensures comes { IfSome result (λ next. has_release_by self.now next ≡ true) }
        ensures first { IfSome result (λ next. (tick : ℕ) → tick < next → has_release_by self.now tick ≡ false) }
    {
        if self.coming < NEVER {
            Some(self.coming)
        } else {
            None
        }
    }

    /// The tick up to which jobs are released, or none before the first.
    pub fn tick(&self) -> Option<u32>
        ensures { result ≡ self.now.tick }
    {
        self.tick
    }

    /// The ready job with the least key. Compares no keys.
    pub fn head(&self) -> Option<JobId>
        ensures { result ≡ head self.now }
    {
        let first = self.heap.first()?;
        Some(first.job())
    }

    // The head after a release up to a tick. Kept apart from the code for ticks without a release.
    #[inline(never)]
    fn head_of_released(&self, tick: u32) -> Option<JobId>
        requires { ForSome self.now.tick (λ before. before ≤ tick) }
        ensures { result ≡ head (record self.now { tick = Some tick }) }
    {
        let until = released_to(&self.calendar, self.next, tick);
        let released = &self.calendar[self.next..until];
        let first = first_of(self.plan, self.heap.first(), released)?;
        Some(first.job())
    }

    /// The head that a release up to a tick, not before the last one, would leave. Releases
    /// nothing, counts no comparison.
    #[inline(always)]
    pub fn head_at(&self, tick: u32) -> Option<JobId>
        requires { ForSome self.now.tick (λ before. before ≤ tick) }
        ensures { result ≡ head (record self.now { tick = Some tick }) }
    {
        if self.has_release_by(tick) {
            self.head_of_released(tick)
        } else {
            self.head()
        }
    }

    /// Takes the head: it isn't ready any more. Needs no memory.
    pub fn take_head(&mut self) -> Option<JobId>
        ensures head { result ≡ head self.old }
        ensures rest { self.new ≡ record self.old { taken = self.new.taken; compared = self.new.compared } }
        ensures taken { (job : Job) → is_among self.new.taken job ≡ is_among self.old.taken job || is_job result job }
        ensures at_most { self.new.compared ≤ self.old.compared + 26 }
        ensures at_least { self.old.compared ≤ self.new.compared }
    {
        let first = self.heap.pop()?;
        Some(first.job())
    }

    /// The number of key comparisons so far, except those of `head_at`.
    pub fn compared(&self) -> u64
        ensures { result ≡ self.now.compared }
    {
        self.heap.compared()
    }
}
