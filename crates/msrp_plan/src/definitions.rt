//! What the definitions say, shown by laws over them: the verdict separates legal runs from all
//! other rows, a run is legal row by row, and each rule looks no further than it should. Each
//! function does nothing; its contract is the law.
ghost use Rattle.std.specs.Prelude.{◌≡◌, ◌↔◌, ◌⊎◌, ◌++◌, ◌∷◌, [], ◌<◌, ◌*◌, ℕ, List, Some, None, map, length, true, false};
ghost use Rattle.std.specs.List.{AllPass};
ghost use Rattle.msrp_plan.specs.Aheads.{without_ahead};
ghost use Rattle.msrp_plan.specs.Plan.{PlanModel};
ghost use Rattle.msrp_plan.specs.Choice.{choice};
ghost use Rattle.msrp_plan.specs.Levels.{is_global};
ghost use Rattle.msrp_plan.specs.Queues.{fifo, is_on};
ghost use Rattle.msrp_plan.specs.Runs.{CoreRun, IsLegal, IsRun, IsRunStart, is_of_core, is_next_action, is_fifo_reply};
ghost use Rattle.msrp_plan.specs.Logs.{log_of, rows_on, AreApart};
ghost use Rattle.msrp_plan.specs.Verdict.{verdict, fault_in, broken};
ghost use Rattle.msrp_plan.specs.Faults.{IsBroken, IsFault, IsOneTooMany};
ghost use Rattle.msrp_plan.specs.Calls.{IsDueCall, claim_with, kind_of_call};
ghost use Rattle.msrp_plan.specs.FifoLock.{free_lock};
ghost use Rattle.msrp_plan.specs.LockStates.{Agree, IsRowOfCall, lock_at};
ghost use Rattle.msrp_plan.specs.Phases.{phase_with};
ghost use Rattle.msrp_plan.specs.WellFormed.{IsPlan};
ghost use Rattle.msrp_plan.specs.declared.faults.Fault.{Fault};
ghost use Rattle.msrp_plan.specs.declared.ids.ResId.{ResId};
ghost use Rattle.msrp_plan.specs.declared.rows.Row.{Row};
ghost use Rattle.msrp_plan.specs.declared.units.Call.{Call};
ghost use Rattle.msrp_plan.specs.declared.units.Phase.{Phase};

/// The verdict on rows is good exactly if they are a legal run of the plan. Otherwise it names the
/// first row that violates a rule, with the lowest rule violated. While the end is unknown, a fault
/// is a row that violates a rule or a surplus row. A row violates a rule exactly if it isn't legal
/// after the rows before it.
pub fn verdicts()
    ensures good { (plan : PlanModel) (rows : List Row) → (verdict plan rows ≡ None) ↔ IsRun plan rows }
    ensures fault { (plan : PlanModel) (rows : List Row) (f : Fault) → (verdict plan rows ≡ Some f) ↔ IsFault plan rows f }
    ensures early { (plan : PlanModel) (rows : List Row) (f : Fault) → (fault_in plan rows ≡ Some f) ↔ (IsBroken plan rows f ⊎ IsOneTooMany plan rows f) }
    ensures row { (plan : PlanModel) (pre : List Row) (r : Row) → (broken plan pre r ≡ None) ↔ IsLegal plan pre r }
{}

/// Each prefix of a legal run is the start of one. While a core has a turn left, a start continues
/// with each legal row, and with no other.
pub fn starts()
    ensures run { (plan : PlanModel) (pre post : List Row) → IsRun plan (pre ++ post) → IsRunStart plan pre }
    ensures start { (plan : PlanModel) (pre post : List Row) → IsRunStart plan (pre ++ post) → IsRunStart plan pre }
    ensures goes_on { (plan : PlanModel) (pre : List Row) (r : Row) → IsRunStart plan pre → length pre < plan.cores * plan.ticks → IsLegal plan pre r → IsRunStart plan (pre ++ r ∷ []) }
    ensures last { (plan : PlanModel) (pre : List Row) (r : Row) → IsRunStart plan (pre ++ r ∷ []) → IsLegal plan pre r }
{}

/// Which job runs on a core, and its next action, depend only on the core's own rows, if each job
/// keeps to its core. A global resource's reply depends only on the rows that name it. So cores
/// affect each other only through the replies of global resources.
pub fn locality()
    ensures choice { (plan : PlanModel) (c t : ℕ) (pre : List Row) → AllPass (is_of_core plan) pre → choice plan c t (log_of c pre) ≡ choice plan c t pre }
    ensures action { (plan : PlanModel) (pre : List Row) (r : Row) → AllPass (is_of_core plan) pre → is_of_core plan r ≡ true → is_next_action plan (log_of r.core.0 pre) r ≡ is_next_action plan pre r }
    ensures queue { (g : ℕ) (pre : List Row) → fifo g (rows_on g pre) ≡ fifo g pre }
    ensures reply { (g : ResId) (pre : List Row) (r : Row) → r.res ≡ Some g → is_fifo_reply (rows_on g.0 pre) r ≡ is_fifo_reply pre r }
{}

/// A legal run seen from one core: the core's rows alone are a run of the core, for any replies of
/// global resources, and a whole run has one of them for each tick.
pub fn core_runs()
    ensures rows { (plan : PlanModel) (rows : List Row) (c : ℕ) → IsRunStart plan rows → c < plan.cores → CoreRun plan c (log_of c rows) }
    ensures whole { (plan : PlanModel) (rows : List Row) (c : ℕ) → IsRun plan rows → c < plan.cores → length (log_of c rows) ≡ plan.ticks }
{}

/// A core's calls of global resources agree with the rows that they make on what the core holds or
/// awaits: an allowed call changes it as a row of the call's kind does.
pub fn calls()
    ensures { (claim : Phase) (g : ResId) (call : Call) → IsDueCall claim g call → phase_with claim (kind_of_call call) (Some g) ≡ claim_with claim g call }
{}

/// Turns commute if they share neither core nor resource: two adjacent ones in one tick may be
/// swapped, and the rest stays as it is.
pub fn commutation()
    ensures { (plan : PlanModel) (pre post : List Row) (r s : Row) → IsRunStart plan (pre ++ r ∷ s ∷ post) → r.tick ≡ s.tick → AreApart r s → IsRunStart plan (pre ++ s ∷ r ∷ post) }
{}

/// Two statements of first-in-first-out agree: the queue of jobs that replies to the rows of a run,
/// and the one-thread lock that answers the calls of cores. The lock answers a turn's call exactly
/// as the queue replies, and after a row it is as after the row's call. So a history that is legal
/// for the lock makes legal replies.
pub fn queues_are_locks()
    ensures start { (plan : PlanModel) (g : ℕ) → lock_at plan g [] ≡ free_lock }
    ensures calls { (plan : PlanModel) (pre : List Row) (r : Row) (g : ℕ) (call : Call) → IsPlan plan → is_global plan g ≡ true → IsRowOfCall g r.core.0 call r → Agree plan pre r g call }
    ensures others { (plan : PlanModel) (pre : List Row) (r : Row) (g : ℕ) → IsPlan plan → IsRunStart plan (pre ++ r ∷ []) → is_global plan g ≡ true → is_on g r.res ≡ false → lock_at plan g (pre ++ r ∷ []) ≡ lock_at plan g pre }
{}

/// The `ahead` column adds nothing to the rows: a legal run without its aheads is still legal.
pub fn aheads()
    ensures start { (plan : PlanModel) (rows : List Row) → IsRunStart plan rows → IsRunStart plan (map without_ahead rows) }
    ensures run { (plan : PlanModel) (rows : List Row) → IsRun plan rows → IsRun plan (map without_ahead rows) }
    ensures ahead { (plan : PlanModel) (pre : List Row) (r : Row) (g : ResId) (n : ℕ) → IsLegal plan pre r → r.res ≡ Some g → r.ahead ≡ Some n → n ≡ length (fifo g.0 pre) }
{}
