//! First-in-first-out queues as tickets: two numbers a resource and one a core, no lists.
ghost use Rattle.std.specs.Prelude.{◌≡◌, ◌<◌};
ghost use Rattle.msrp_plan.specs.Common.{ℕ, slice_index_or, free_lock, most_cores, most_resources, most_rows};
ghost use Rattle.msrp_core.specs.Ports.{asked, HasAhead};
ghost use Rattle.msrp_sim.specs.Serving.{AreDrawn, IsServing, IsTold, Notes, queue_of};

use msrp_core::{PortCall, Reply};
use msrp_plan::limits::{MOST_CORES, MOST_RESOURCES};
use msrp_plan::{Call, CoreId, Phase, ResId};

// The tickets of a resource: a request draws the next one. The core with the served ticket holds
// the resource, or will at its next poll. A release serves the next ticket.
#[derive(Clone, Copy)]
struct Tickets {
    next: u32,
    serving: u32,
}

// The queues of all resources, without lists of the queued cores.
#[derive(Clone, Copy)]
pub struct Queues {
    queues: [Tickets; MOST_RESOURCES],
    // The newest ticket of each core.
    tickets: [u32; MOST_CORES as usize],
}

// The request with this answer.
pub(crate) fn request(reply: Reply) -> Call
    ensures { result ≡ asked reply }
{
    match reply {
        Reply::Taken => Call::Ask(0),
        Reply::Queued(ahead) => Call::Ask(ahead),
    }
}

impl Queues {
    // Before the first request.
    pub fn new() -> Queues
        ensures serving { IsServing (λ _. free_lock) (λ _. Phase.Free) result }
        ensures drawn { AreDrawn result 0 }
    {
        let none = Tickets {
            next: 0,
            serving: 0,
        };
        Queues {
            queues: [none; MOST_RESOURCES],
            tickets: [0; MOST_CORES as usize],
        }
    }

    // The tickets of a resource; none drawn if there is no such resource.
    fn queue(&self, res: ResId) -> Tickets
        ensures { result ≡ queue_of self.now res.0 }
    {
        match self.queues.get(res.0 as usize) {
            Some(tickets) => *tickets,
            None => Tickets {
                next: 0,
                serving: 0,
            },
        }
    }

    // The answer to a request of the resource now.
    pub fn reply(&self, res: ResId) -> Reply
        ensures told { (c : ℕ) → IsTold self.now c res.0 (asked result) }
        ensures ahead { HasAhead result }
    {
        let tickets = self.queue(res);
        match tickets.next.saturating_sub(tickets.serving) {
            0 => Reply::Taken,
            ahead => Reply::Queued(ahead),
        }
    }

    // Whether a poll of the core, which waits for the resource, is granted now.
    pub fn grants(&self, core: CoreId, res: ResId) -> bool
        ensures { IsTold self.now core.0 res.0 (Call.Poll result) }
    {
        let ticket = self.tickets.get(core.0 as usize).copied().unwrap_or(0);
        ticket == self.queue(res).serving
    }

    // Adds a call, with its answer.
    pub fn note(&mut self, call: PortCall)
        requires core { call.core.0 < most_cores }
        requires resource { call.res.0 < most_resources }
        requires drawn { AreDrawn self.old most_rows }
        ensures { Notes call self.old self.new }
    {
        match call.call {
            Call::Ask(_) => {
                let queue = &mut self.queues[call.res.0 as usize];
                self.tickets[call.core.0 as usize] = queue.next;
                queue.next += 1;
            }
            Call::Poll(_) => {}
            Call::Leave => self.queues[call.res.0 as usize].serving += 1,
        }
    }
}
