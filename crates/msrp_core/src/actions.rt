//! What the running job does in its turn: its next unit, or one more tick of waiting for it.
ghost use Rattle.std.specs.Prelude.{◌≡◌};
ghost use Rattle.msrp_plan.specs.Common.{Some, None, true, false, ForSome, is_global, has_shape, may_carry};
ghost use Rattle.msrp_plan.specs.declared.ids.ResId.{ResId as Resource};
ghost use Rattle.msrp_core.specs.Active.{is_holding_phase, is_waiting_phase};
ghost use Rattle.msrp_core.specs.Ports.{claim_in, IsQuiet, MakesCall};
ghost use Rattle.msrp_core.specs.Actions.{EachRowOf, IsRowOf};
ghost use Rattle.msrp_core.specs.CoreJobs.{Acts, ActsFor, AreJobs, CanAct, CanCall, IsRunning};

use crate::jobs::Jobs;
use crate::port::{Port, Reply};
use msrp_plan::{CoreId, JobId, Kind, Op, Phase, ResId, Row};

// What a turn does: its row except for tick, core and job.
#[derive(Clone, Copy)]
struct Action {
    kind: Kind,
    res: Option<ResId>,
    ahead: Option<u32>,
}

// The row of a turn with this action.
#[inline(always)]
fn row_doing(core: CoreId, tick: u32, job: Option<JobId>, action: Action) -> Row
    requires shape { has_shape action.kind job action.res ≡ true }
    requires carrier { may_carry action.kind action.ahead ≡ true }
    ensures { IsRowOf tick core job action result }
{
    Row {
        tick,
        core,
        kind: action.kind,
        job,
        res: action.res,
        ahead: action.ahead,
    }
}

// An action on a resource, with no ahead.
#[inline(always)]
fn action_on(kind: Kind, res: ResId) -> Action
    ensures { result ≡ record { kind = kind; res = Some res; ahead = None } }
{
    Action {
        kind,
        res: Some(res),
        ahead: None,
    }
}

// A row of a job.
pub(crate) fn row_on(core: CoreId, tick: u32, kind: Kind, job: JobId, res: Option<ResId>) -> Row
    requires { has_shape kind (Some job) res ≡ true }
    ensures { IsRowOf tick core (Some job) (record { kind = kind; res = res; ahead = None }) result }
{
    Row {
        tick,
        core,
        kind,
        job: Some(job),
        res,
        ahead: None,
    }
}

// The row of a turn in which no job runs.
pub(crate) fn idle_row(core: CoreId, tick: u32) -> Row
    ensures { IsRowOf tick core None (record { kind = Kind.Idle; res = None; ahead = None }) result }
{
    Row {
        tick,
        core,
        kind: Kind::Idle,
        job: None,
        res: None,
        ahead: None,
    }
}

impl<'a> Jobs<'a> {
    // Whether the core waits for a global resource.
    fn is_waiting(&self) -> bool
        ensures { result ≡ is_waiting_phase self.now.phase }
    {
        matches!(self.phase, Phase::Queued(_))
    }

    // Whether the core holds this global resource.
    fn is_holding(&self, res: ResId) -> bool
        ensures { result ≡ is_holding_phase res self.now.phase }
    {
        match self.phase {
            Phase::Holding(held) => held == res,
            _ => false,
        }
    }

    #[inline(always)]
    fn work(&mut self, job: JobId) -> Action
        requires { CanAct self.old job Op.Run }
        ensures action { result ≡ record { kind = Kind.Run; res = None; ahead = None } }
        ensures acts { EachRowOf self.old.core (Some job) result (Acts self.old self.new job) }
        ensures phase { self.new.phase ≡ self.old.phase }
    {
        self.advance(job);
        Action {
            kind: Kind::Run,
            res: None,
            ahead: None,
        }
    }

    // A lock of a local resource.
    #[inline(always)]
    fn lock(&mut self, job: JobId, res: ResId) -> Action
        requires can { CanAct self.old job (Op.Lock res) }
        requires local { is_global self.old.plan.now res.0 ≡ false }
        ensures action { result ≡ record { kind = Kind.Lock; res = Some res; ahead = None } }
        ensures acts { EachRowOf self.old.core (Some job) result (Acts self.old self.new job) }
        ensures phase { self.new.phase ≡ self.old.phase }
    {
        self.stack.lock(res);
        self.advance(job);
        action_on(Kind::Lock, res)
    }

    // An unlock of a local resource.
    #[inline(always)]
    fn unlock(&mut self, job: JobId, res: ResId) -> Action
        requires can { CanAct self.old job (Op.Unlock res) }
        requires local { is_global self.old.plan.now res.0 ≡ false }
        ensures action { result ≡ record { kind = Kind.Unlock; res = Some res; ahead = None } }
        ensures acts { EachRowOf self.old.core (Some job) result (Acts self.old self.new job) }
        ensures phase { self.new.phase ≡ self.old.phase }
    {
        self.stack.unlock(res);
        self.advance(job);
        action_on(Kind::Unlock, res)
    }

    // A request that is granted at once.
    #[inline(always)]
    fn take(&mut self, job: JobId, res: ResId) -> Action
        requires can { CanAct self.old job (Op.Lock res) }
        requires global { is_global self.old.plan.now res.0 ≡ true }
        requires free { self.old.phase ≡ Phase.Free }
        ensures action { result ≡ record { kind = Kind.Take; res = Some res; ahead = None } }
        ensures acts { EachRowOf self.old.core (Some job) result (Acts self.old self.new job) }
        ensures phase { self.new.phase ≡ Phase.Holding res }
    {
        self.stack.raise_global(res);
        self.phase = Phase::Holding(res);
        self.advance(job);
        action_on(Kind::Take, res)
    }

    // A request that joins the queue: the job waits.
    #[inline(always)]
    fn wait(&mut self, job: JobId, res: ResId, ahead: u32) -> Action
        requires can { CanAct self.old job (Op.Lock res) }
        requires global { is_global self.old.plan.now res.0 ≡ true }
        requires free { self.old.phase ≡ Phase.Free }
        ensures action { result ≡ record { kind = Kind.Queue; res = Some res; ahead = Some ahead } }
        ensures acts { EachRowOf self.old.core (Some job) result (Acts self.old self.new job) }
        ensures phase { self.new.phase ≡ Phase.Queued res }
    {
        self.stack.raise_global(res);
        self.phase = Phase::Queued(res);
        Action {
            kind: Kind::Queue,
            res: Some(res),
            ahead: Some(ahead),
        }
    }

    // A request of a global resource, written in place so that a port for one turn needs no memory.
    #[inline(always)]
    fn request<P: Port>(&mut self, port: &mut P, job: JobId, res: ResId) -> Action
        requires can { CanAct self.old job (Op.Lock res) }
        requires global { is_global self.old.plan.now res.0 ≡ true }
        requires free { self.old.phase ≡ Phase.Free }
        requires call { CanCall self.old (P.port port.old) }
        ensures shape { has_shape result.kind (Some job) result.res ≡ true }
        ensures carrier { may_carry result.kind result.ahead ≡ true }
        ensures acts { EachRowOf self.old.core (Some job) result (Acts self.old self.new job) }
        ensures call { EachRowOf self.old.core (Some job) result (λ _ r. MakesCall self.old.plan.now r (P.port port.old) (P.port port.new)) }
        ensures claim { claim_in self.old.core.0 (P.port port.new).calls ≡ self.new.phase }
    {
        match port.ask(self.core, res) {
            Reply::Taken => self.take(job, res),
            Reply::Queued(ahead) => self.wait(job, res, ahead),
        }
    }

    // A poll answered yes: the job holds the resource.
    #[inline(always)]
    fn granted(&mut self, job: JobId, res: ResId) -> Action
        requires can { CanAct self.old job (Op.Lock res) }
        requires awaits { self.old.phase ≡ Phase.Queued res }
        ensures action { result ≡ record { kind = Kind.Grant; res = Some res; ahead = None } }
        ensures acts { EachRowOf self.old.core (Some job) result (Acts self.old self.new job) }
        ensures phase { self.new.phase ≡ Phase.Holding res }
    {
        self.phase = Phase::Holding(res);
        self.advance(job);
        action_on(Kind::Grant, res)
    }

    // A poll answered no: the job goes on waiting.
    #[inline(always)]
    pub(crate) fn spin(&self, tick: u32, job: JobId, res: ResId) -> Row
        requires can { CanAct self.now job (Op.Lock res) }
        requires awaits { self.now.phase ≡ Phase.Queued res }
        ensures acts { Acts self.now self.now job tick result }
        ensures res { result.res ≡ Some res }
        ensures kind { result.kind ≡ Kind.Spin }
        ensures ahead { result.ahead ≡ None }
    {
        row_on(self.core, tick, Kind::Spin, job, Some(res))
    }

    // A poll of the global resource that the job waits for.
    #[inline(always)]
    fn poll<P: Port>(&mut self, port: &mut P, job: JobId, res: ResId) -> Action
        requires can { CanAct self.old job (Op.Lock res) }
        requires global { is_global self.old.plan.now res.0 ≡ true }
        requires awaits { self.old.phase ≡ Phase.Queued res }
        requires call { CanCall self.old (P.port port.old) }
        ensures shape { has_shape result.kind (Some job) result.res ≡ true }
        ensures carrier { may_carry result.kind result.ahead ≡ true }
        ensures acts { EachRowOf self.old.core (Some job) result (Acts self.old self.new job) }
        ensures call { EachRowOf self.old.core (Some job) result (λ _ r. MakesCall self.old.plan.now r (P.port port.old) (P.port port.new)) }
        ensures claim { claim_in self.old.core.0 (P.port port.new).calls ≡ self.new.phase }
    {
        if port.poll(self.core, res) {
            self.granted(job, res)
        } else {
            action_on(Kind::Spin, res)
        }
    }

    // The release of the global resource that the job holds.
    #[inline(always)]
    fn drop_held(&mut self, job: JobId, res: ResId) -> Action
        requires can { CanAct self.old job (Op.Unlock res) }
        requires global { is_global self.old.plan.now res.0 ≡ true }
        ensures action { result ≡ record { kind = Kind.Release; res = Some res; ahead = None } }
        ensures acts { EachRowOf self.old.core (Some job) result (Acts self.old self.new job) }
        ensures phase { self.new.phase ≡ Phase.Free }
    {
        self.stack.drop_global(res);
        self.phase = Phase::Free;
        self.advance(job);
        action_on(Kind::Release, res)
    }

    // A release of a global resource, with a call of the port.
    #[inline(always)]
    fn release<P: Port>(&mut self, port: &mut P, job: JobId, res: ResId) -> Action
        requires can { CanAct self.old job (Op.Unlock res) }
        requires global { is_global self.old.plan.now res.0 ≡ true }
        requires holding { self.old.phase ≡ Phase.Holding res }
        requires call { CanCall self.old (P.port port.old) }
        ensures shape { has_shape result.kind (Some job) result.res ≡ true }
        ensures carrier { may_carry result.kind result.ahead ≡ true }
        ensures acts { EachRowOf self.old.core (Some job) result (Acts self.old self.new job) }
        ensures call { EachRowOf self.old.core (Some job) result (λ _ r. MakesCall self.old.plan.now r (P.port port.old) (P.port port.new)) }
        ensures claim { claim_in self.old.core.0 (P.port port.new).calls ≡ self.new.phase }
    {
        port.leave(self.core, res);
        self.drop_held(job, res)
    }

    // The running job's next action: its next unit, or one more tick of waiting for it.
    #[inline(always)]
    fn act<P: Port>(&mut self, port: &mut P, job: JobId) -> Action
        requires jobs { AreJobs self.old }
        requires running { IsRunning self.old job }
        requires call { CanCall self.old (P.port port.old) }
        ensures shape { has_shape result.kind (Some job) result.res ≡ true }
        ensures carrier { may_carry result.kind result.ahead ≡ true }
        ensures acts { EachRowOf self.old.core (Some job) result (Acts self.old self.new job) }
        ensures call { EachRowOf self.old.core (Some job) result (λ _ r. (res : Resource) → r.res ≡ Some res → is_global self.old.plan.now res.0 ≡ true → MakesCall self.old.plan.now r (P.port port.old) (P.port port.new)) }
        ensures quiet { EachRowOf self.old.core (Some job) result (λ _ r. IsQuiet self.old.plan.now r → port.new ≡ port.old) }
        ensures claim { claim_in self.old.core.0 (P.port port.new).calls ≡ self.new.phase }
    {
        match self.unit(job) {
            Op::Run => self.work(job),
            Op::Lock(res) => if self.is_waiting() {
                self.poll(port, job, res)
            } else if self.levels.is_global(res) {
                self.request(port, job, res)
            } else {
                self.lock(job, res)
            },
            Op::Unlock(res) => if self.is_holding(res) {
                self.release(port, job, res)
            } else {
                self.unlock(job, res)
            },
        }
    }

    // The action of the chosen job; with none, the core idles.
    #[inline(always)]
    fn action_of<P: Port>(&mut self, port: &mut P, chosen: Option<JobId>) -> Action
        requires jobs { AreJobs self.old }
        requires running { ForSome chosen (IsRunning self.old) }
        requires call { CanCall self.old (P.port port.old) }
        ensures shape { has_shape result.kind chosen result.res ≡ true }
        ensures carrier { may_carry result.kind result.ahead ≡ true }
        ensures acts { EachRowOf self.old.core chosen result (ActsFor self.old self.new chosen) }
        ensures call { EachRowOf self.old.core chosen result (λ _ r. (res : Resource) → r.res ≡ Some res → is_global self.old.plan.now res.0 ≡ true → MakesCall self.old.plan.now r (P.port port.old) (P.port port.new)) }
        ensures quiet { EachRowOf self.old.core chosen result (λ _ r. IsQuiet self.old.plan.now r → port.new ≡ port.old) }
        ensures claim { claim_in self.old.core.0 (P.port port.new).calls ≡ self.new.phase }
    {
        match chosen {
            None => Action {
                kind: Kind::Idle,
                res: None,
                ahead: None,
            },
            Some(job) => self.act(port, job),
        }
    }

    /// The turn of the chosen job; with none, the core idles.
    #[inline(always)]
    pub(crate) fn act_chosen<P: Port>(
        &mut self,
        port: &mut P,
        tick: u32,
        chosen: Option<JobId>,
    ) -> Row
        requires jobs { AreJobs self.old }
        requires running { ForSome chosen (IsRunning self.old) }
        requires call { CanCall self.old (P.port port.old) }
        ensures acts { ActsFor self.old self.new chosen tick result }
        ensures call { (res : Resource) → result.res ≡ Some res → is_global self.old.plan.now res.0 ≡ true → MakesCall self.old.plan.now result (P.port port.old) (P.port port.new) }
        ensures quiet { IsQuiet self.old.plan.now result → port.new ≡ port.old }
        ensures claim { claim_in self.old.core.0 (P.port port.new).calls ≡ self.new.phase }
    {
        let core = self.core;
        let action = self.action_of(port, chosen);
        row_doing(core, tick, chosen, action)
    }
}
