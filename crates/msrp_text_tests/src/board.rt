//! Boards that run, on one thread and on several. The calls below check each call's preconditions
//! at run time, by the seat's readers.
ghost use Rattle.std.specs.Prelude.{◌≡◌, ◌<◌, ◌≤◌};
ghost use Rattle.msrp_plan.specs.Common.{length, IfOk, IfSome, All};
ghost use Rattle.std.specs.Thread.{IsSync};
ghost use Rattle.msrp_board.specs.declared.answers.Look.TheVariants.{Go};
ghost use Rattle.msrp_board.specs.Seats.{IsCoreSeatOn, IsFresh};

mod port;

use msrp_board::{
    Asked, Board, BoardError, BoardSeat, Conductor, Look, Polled, SeatPhase, Settled,
};
use msrp_plan::{CoreId, Phase, ResId};
use std::alloc::{AllocError, Global};
use std::process::Abort;
use std::test::*;
use std::thread;
use std::thread::Threads;

fn ask(rt: &impl Abort, board: &Board, seat: &mut BoardSeat, res: ResId) -> Asked
    requires seat { IsCoreSeatOn board.now seat.old × IsFresh seat.old }
    requires res { res.0 < board.now.size.resources }
    ensures { IsCoreSeatOn board.now seat.new }
{
    let Phase::Free = seat.lock() else {
        panic!(rt; "not free")
    };
    board.ask(seat, res)
}

fn poll(rt: &impl Abort, board: &Board, seat: &mut BoardSeat) -> Polled
    requires { IsCoreSeatOn board.now seat.old × IsFresh seat.old }
    ensures { IsCoreSeatOn board.now seat.new }
{
    let Phase::Queued(_) = seat.lock() else {
        panic!(rt; "not queued")
    };
    board.poll(seat)
}

fn leave(rt: &impl Abort, board: &Board, seat: &mut BoardSeat) -> u32
    requires { IsCoreSeatOn board.now seat.old × IsFresh seat.old }
    ensures { IsCoreSeatOn board.now seat.new }
{
    let Phase::Holding(_) = seat.lock() else {
        panic!(rt; "not holding")
    };
    board.leave(seat)
}

fn look(rt: &impl Abort, board: &Board, seat: &mut BoardSeat) -> Look
    requires { IsCoreSeatOn board.now seat.old }
    ensures seat { IsCoreSeatOn board.now seat.new }
    ensures fresh { result ≡ Go → IsFresh seat.new }
{
    let SeatPhase::Waiting = seat.phase() else {
        panic!(rt; "not waiting")
    };
    board.look(seat)
}

fn arrive(rt: &impl Abort, board: &Board, seat: &mut BoardSeat)
    requires { IsCoreSeatOn board.now seat.old }
    ensures { IsCoreSeatOn board.now seat.new }
{
    let SeatPhase::Admitted = seat.phase() else {
        panic!(rt; "not admitted")
    };
    board.arrive(seat);
}

/// Looks, and must be let in.
fn enter(rt: &impl Abort, board: &Board, seat: &mut BoardSeat)
    requires { IsCoreSeatOn board.now seat.old }
    ensures { IsCoreSeatOn board.now seat.new × IsFresh seat.new }
{
    let Look::Go = look(rt, board, seat) else {
        panic!(rt; "not let in")
    };
}

fn part(rt: &impl Abort, board: &Board, seat: BoardSeat, core: u32) -> (BoardSeat, BoardSeat)
    requires { seat.board ≡ board.now }
    ensures own { IsCoreSeatOn board.now result.0 }
    ensures rest { result.1.board ≡ board.now }
{
    let has_book = seat.has_book(CoreId(core));
    if !has_book {
        panic!(rt; "no book of the core");
    }
    assert!(rt; seat.conductor().is_some());
    board.split(seat, CoreId(core))
}

fn open(rt: &impl Abort, board: &Board, seat: &mut BoardSeat)
    requires { seat.old.board ≡ board.now }
    ensures { seat.new.board ≡ board.now }
{
    let Some(Conductor::Unopened) = seat.conductor() else {
        panic!(rt; "opened already")
    };
    board.open(seat);
}

fn abort(rt: &impl Abort, board: &Board, seat: &mut BoardSeat)
    requires { seat.old.board ≡ board.now }
    ensures { seat.new.board ≡ board.now }
{
    let Some(Conductor::Unopened) = seat.conductor() else {
        panic!(rt; "opened already")
    };
    board.abort(seat);
}

/// Checks that the seat has all books, and ends the board.
fn end(rt: &impl Abort, board: Board, cores: u32, seat: BoardSeat) -> Settled
    requires { (seat.board ≡ board) × (board.size.cores ≡ cores) }
    ensures { result.size ≡ board.size }
{
    for core in 0..cores {
        let has_book = seat.has_book(CoreId(core));
        if !has_book {
            panic!(rt; "no book of a core");
        }
    }
    let has_conductor = seat.conductor().is_some();
    if !has_conductor {
        panic!(rt; "no book of the conductor");
    }
    board.settle(seat)
}

/// A board of two cores and one resource, with the conductor's seat and those of the cores.
fn two(rt: &impl Abort, alloc: Global, ticks: u32) -> (Board, BoardSeat, BoardSeat, BoardSeat)
    ensures size { (result.0.size.cores ≡ 2) × (result.0.size.resources ≡ 1) }
    ensures seats { (result.1.board ≡ result.0) × IsCoreSeatOn result.0 result.2 × IsCoreSeatOn result.0 result.3 }
{
    let Ok((board, seat)) = Board::new(alloc, 2, 1, ticks) else {
        panic!(rt; "no board")
    };
    let (zero, rest) = part(rt, &board, seat, 0);
    let (one, rest) = part(rt, &board, rest, 1);
    (board, rest, zero, one)
}

/// A word of a resource, the most significant byte first.
fn word_bytes(settled: &Settled) -> [u8; 8]
    requires { settled.now.size.resources ≡ 1 }
{
    let (next, serving) = settled.word(ResId(0));
    (u64::from(next) * 4294967296 + u64::from(serving)).to_be_bytes()
}

const RES: ResId = ResId(0);

/// Lets both cores into their tick.
fn enter_both(rt: &impl Abort, board: &Board, zero: &mut BoardSeat, one: &mut BoardSeat)
    requires { IsCoreSeatOn board.now zero.old × IsCoreSeatOn board.now one.old }
    ensures zero { IsCoreSeatOn board.now zero.new × IsFresh zero.new }
    ensures one { IsCoreSeatOn board.now one.new × IsFresh one.new }
{
    enter(rt, board, zero);
    enter(rt, board, one);
}

/// What both cores see.
fn look_both(rt: &impl Abort, board: &Board, zero: &mut BoardSeat, one: &mut BoardSeat) -> [Look; 2]
    requires { IsCoreSeatOn board.now zero.old × IsCoreSeatOn board.now one.old }
    ensures { IsCoreSeatOn board.now zero.new × IsCoreSeatOn board.now one.new }
{
    [look(rt, board, zero), look(rt, board, one)]
}

/// Both cores arrive, and are let into the next tick.
fn next_tick(rt: &impl Abort, board: &Board, zero: &mut BoardSeat, one: &mut BoardSeat)
    requires { IsCoreSeatOn board.now zero.old × IsCoreSeatOn board.now one.old }
    ensures zero { IsCoreSeatOn board.now zero.new × IsFresh zero.new }
    ensures one { IsCoreSeatOn board.now one.new × IsFresh one.new }
{
    arrive(rt, board, zero);
    arrive(rt, board, one);
    enter_both(rt, board, zero, one);
}

/// The answers to both requests in tick 0, and to the second core's poll in tick 1; both enter tick
/// 2.
fn ask_both(
    rt: &impl Abort,
    board: &Board,
    zero: &mut BoardSeat,
    one: &mut BoardSeat,
) -> ([Asked; 2], Polled)
    requires seats { IsCoreSeatOn board.now zero.old × IsCoreSeatOn board.now one.old }
    requires resource { board.now.size.resources ≡ 1 }
    ensures zero { IsCoreSeatOn board.now zero.new × IsFresh zero.new }
    ensures one { IsCoreSeatOn board.now one.new × IsFresh one.new }
{
    enter_both(rt, board, zero, one);
    let asked = [ask(rt, board, zero, RES), ask(rt, board, one, RES)];
    next_tick(rt, board, zero, one);
    let polled = poll(rt, board, one);
    next_tick(rt, board, zero, one);
    (asked, polled)
}

/// The second core's polls in ticks 2 and 3, before and after the first core's release in tick 2,
/// and the places of both releases. Both have arrived from tick 5.
fn hand_over(
    rt: &impl Abort,
    board: &Board,
    zero: &mut BoardSeat,
    one: &mut BoardSeat,
) -> ([Polled; 2], [u32; 2])
    requires zero { IsCoreSeatOn board.now zero.old × IsFresh zero.old }
    requires one { IsCoreSeatOn board.now one.old × IsFresh one.old }
    ensures { IsCoreSeatOn board.now zero.new × IsCoreSeatOn board.now one.new }
{
    let before = poll(rt, board, one);
    let left = leave(rt, board, zero);
    next_tick(rt, board, zero, one);
    let after = poll(rt, board, one);
    next_tick(rt, board, zero, one);
    next_tick(rt, board, zero, one);
    let left_last = leave(rt, board, one);
    arrive(rt, board, zero);
    arrive(rt, board, one);
    ([before, after], [left, left_last])
}

/// Each core's places and answers, and the word, if the core that polls goes before the core that
/// releases in tick 2, and so is granted only in tick 3.
#[test]
fn handover_takes_the_next_poll(rt: HostRuntime) {
    let (board, mut rest, mut zero, mut one) = two(&rt, rt.alloc(), 6);
    open(&rt, &board, &mut rest);
    let (asked, in_one) = ask_both(&rt, &board, &mut zero, &mut one);
    let ([in_two, in_three], left) = hand_over(&rt, &board, &mut zero, &mut one);
    assert_eq!(rt;
        asked,
        [Asked { place: 0, ahead: 0 }, Asked { place: 1, ahead: 1 }]
    );
    let polled = [(2u32, false), (2, false), (3, true)].map(|(place, granted)| Polled {
        place,
        granted,
    });
    assert_eq!(rt; [in_one, in_two, in_three], polled);
    assert_eq!(rt; left, [2, 3]);
    assert_eq!(rt; (zero.phase(), one.tick()), (SeatPhase::Done, 6));
    let rest = board.join(rest, zero);
    let all = board.join(rest, one);
    let settled = end(&rt, board, 2, all);
    assert_eq!(rt; word_bytes(&settled), [0, 0, 0, 2, 0, 0, 0, 2]);
}

#[test]
fn two_requests_are_counted(rt: HostRuntime) {
    let (board, mut rest, mut zero, mut one) = two(&rt, rt.alloc(), 1);
    open(&rt, &board, &mut rest);
    enter(&rt, &board, &mut zero);
    enter(&rt, &board, &mut one);
    let asked = [
        ask(&rt, &board, &mut zero, RES),
        ask(&rt, &board, &mut one, RES),
    ];
    assert_eq!(rt;
        asked,
        [Asked { place: 0, ahead: 0 }, Asked { place: 1, ahead: 1 }]
    );
    assert_eq!(rt;
        [zero.lock(), one.lock()],
        [Phase::Holding(RES), Phase::Queued(RES)]
    );
    assert!(rt; one.acted());
    let rest = board.join(rest, zero);
    let all = board.join(rest, one);
    let settled = end(&rt, board, 2, all);
    assert_eq!(rt; word_bytes(&settled), [0, 0, 0, 2, 0, 0, 0, 0]);
}

#[test]
fn cores_meet_between_ticks(rt: HostRuntime) {
    let (board, mut rest, mut zero, mut one) = two(&rt, rt.alloc(), 2);
    let before = look_both(&rt, &board, &mut zero, &mut one);
    open(&rt, &board, &mut rest);
    let opened = look_both(&rt, &board, &mut zero, &mut one);
    arrive(&rt, &board, &mut zero);
    let alone = look(&rt, &board, &mut zero);
    arrive(&rt, &board, &mut one);
    let met = look_both(&rt, &board, &mut zero, &mut one);
    assert_eq!(rt;
        [before, opened, met],
        [[Look::Wait; 2], [Look::Go; 2], [Look::Go; 2]]
    );
    assert_eq!(rt; alone, Look::Wait);
    assert_eq!(rt; (zero.tick(), one.tick()), (1, 1));
}

#[test]
fn an_abort_is_told(rt: HostRuntime) {
    let (board, mut rest, mut zero, mut one) = two(&rt, rt.alloc(), 2);
    abort(&rt, &board, &mut rest);
    assert_eq!(rt; rest.conductor(), Some(Conductor::Aborted));
    let stopped = look_both(&rt, &board, &mut zero, &mut one);
    assert_eq!(rt; stopped, [Look::Stopped; 2]);
    assert_eq!(rt; (zero.phase(), zero.tick()), (SeatPhase::Stopped, 0));
}

#[test]
fn limits_are_judged(rt: HostRuntime) {
    let cases = [
        (8, 32, 20000, true),
        (1, 0, 1, true),
        (0, 1, 1, false),
        (9, 1, 1, false),
        (1, 33, 1, false),
        (1, 1, 0, false),
        (1, 1, 20001, false),
    ];
    for (cores, resources, ticks, is_good) in cases {
        match Board::new(rt.alloc(), cores, resources, ticks) {
            Ok((_board, seat)) => {
                assert!(rt; is_good);
                assert_eq!(rt; seat.conductor(), Some(Conductor::Unopened));
            }
            Err(error) => {
                assert!(rt; !is_good);
                assert_eq!(rt; error, BoardError::B1);
            }
        }
    }
}

/// A tick of a core that requests its resource in even ticks and releases it in odd ones.
fn lap(rt: &impl Abort, board: &Board, seat: &mut BoardSeat, res: ResId, tick: u32)
    requires { IsCoreSeatOn board.now seat.old × (res.0 < board.now.size.resources) }
    ensures { IsCoreSeatOn board.now seat.new }
{
    enter(rt, board, seat);
    if tick % 2 == 0 {
        assert_eq!(rt; ask(rt, board, seat, res).ahead, 0);
    } else {
        leave(rt, board, seat);
    }
    arrive(rt, board, seat);
}

/// A core's number and seat.
#[derive(Drop)]
struct Player {
    seat: BoardSeat,
    core: u32,
    log: Vec<Answered>,
}

/// The cores' seats, and one with the other books.
fn deal(
    rt: &impl Abort,
    alloc: Global,
    board: &Board,
    seat: BoardSeat,
    cores: u32,
) -> Result<(Vec<Player>, BoardSeat), AllocError>
    requires { seat.board ≡ board.now }
    ensures seats { IfOk result (λ r. All (λ p. IsCoreSeatOn board.now p.seat) r.0.items) }
    ensures rest { IfOk result (λ r. r.1.board ≡ board.now) }
{
    let mut players = Vec::new(alloc);
    let mut rest = seat;
    for core in 0..cores {
        let (own, others) = part(rt, board, rest, core);
        rest = others;
        players.push(Player {
            seat: own,
            core,
            log: Vec::new(alloc),
        })?;
    }
    Ok((players, rest))
}

/// One seat with all books.
fn gather(board: &Board, mut players: Vec<Player>, rest: BoardSeat) -> BoardSeat
    requires { All (λ p. IsCoreSeatOn board.now p.seat) players.items × (rest.board ≡ board.now) }
    ensures { result.board ≡ board.now }
{
    let mut all = rest;
    while let Some(player) = players.pop() {
        all = board.join(all, player.seat);
    }
    all
}

/// Each core in turn, in each tick.
fn lap_all(rt: &impl Abort, board: &Board, players: &mut [Player], tick: u32)
    requires { All (λ p. IsCoreSeatOn board.now p.seat) players.old × (length players.old ≤ 8) × (board.now.size.resources ≡ 32) }
    ensures { All (λ p. IsCoreSeatOn board.now p.seat) players.new }
{
    let mut core = 0;
    while core < players.len() {
        let seat = &mut players[core].seat;
        lap(rt, board, seat, ResId(core as u32), tick);
        core += 1;
    }
}

/// Each core has arrived from the last tick.
fn are_done(rt: &impl Abort, board: &Board, players: &[Player])
    requires { All (λ p. IsCoreSeatOn board.now p.seat) players.now }
{
    let _ = board;
    for player in players {
        assert_eq!(rt; player.seat.phase(), SeatPhase::Done);
    }
}

/// A board and its first seat.
fn board_of(
    rt: &impl Abort,
    alloc: Global,
    cores: u32,
    resources: u32,
    ticks: u32,
) -> (Board, BoardSeat)
    ensures size { result.0.size ≡ record { cores = cores; resources = resources; ticks = ticks } }
    ensures seat { result.1.board ≡ result.0 }
{
    let Ok((board, seat)) = Board::new(alloc, cores, resources, ticks) else {
        panic!(rt; "no board")
    };
    (board, seat)
}

/// Each core in turn, in each of these ticks.
fn run_laps(rt: &impl Abort, board: &Board, players: Vec<Player>, ticks: u32) -> Vec<Player>
    requires { All (λ p. IsCoreSeatOn board.now p.seat) players.items × (board.now.size.resources ≡ 32) }
    ensures { All (λ p. IsCoreSeatOn board.now p.seat) result.items }
{
    let mut players = players;
    if players.len() > 8 {
        panic!(rt; "more than eight cores");
    }
    for tick in 0..ticks {
        lap_all(rt, board, players.as_mut_slice(), tick);
    }
    players
}

/// The longest run: each core has its own resource.
#[test]
fn longest_run_is_counted(rt: HostRuntime) -> Result<(), Fail> {
    let (board, seat) = board_of(&rt, rt.alloc(), 8, 32, 20000);
    let (players, mut rest) = deal(&rt, rt.alloc(), &board, seat, 8)?;
    open(&rt, &board, &mut rest);
    let players = run_laps(&rt, &board, players, 20000);
    are_done(&rt, &board, players.as_slice());
    let all = gather(&board, players, rest);
    let settled = end(&rt, board, 8, all);
    for res in 0u32..32 {
        let counts = if res < 8 { (10000, 10000) } else { (0, 0) };
        assert_eq!(rt; settled.word(ResId(res)), counts);
    }
    Ok(())
}

/// An answer to a core, with what orders it in the history of its resource.
#[derive(Clone, Copy, PartialEq, Eq, PartialOrd, Ord)]
struct Answered {
    res: u32,
    place: u32,
    is_step: bool,
    tick: u32,
    core: u32,
    made: Made,
}

#[derive(Clone, Copy, PartialEq, Eq, PartialOrd, Ord)]
enum Made {
    Ask(u32),
    Poll(bool),
    Leave,
}

/// A source of pseudo-random numbers (Knuth's multiplier).
#[derive(Drop)]
struct Numbers(u64);

impl Numbers {
    fn below(&mut self, bound: u32) -> u32
        requires { 0 < bound }
        ensures { result < bound }
    {
        self.0 = self
            .0
            .wrapping_mul(6364136223846793005)
            .wrapping_add(1442695040888963407);
        ((self.0 >> 33) % u64::from(bound)) as u32
    }
}

/// What a core does in a tick that it was let into, and the answer.
fn act(
    rt: &impl Abort,
    board: &Board,
    player: &mut Player,
    numbers: &mut Numbers,
) -> Option<Answered>
    requires seat { IsCoreSeatOn board.now player.old.seat × IsFresh player.old.seat }
    requires resources { board.now.size.resources ≡ 3 }
    ensures { IsCoreSeatOn board.now player.new.seat }
{
    let is_idle = numbers.below(4) == 0;
    let tick = player.seat.tick();
    let core = player.core;
    let (res, place, made) = match player.seat.lock() {
        _ if is_idle => return None,
        Phase::Free => {
            let res = ResId(numbers.below(3));
            let asked = ask(rt, board, &mut player.seat, res);
            (res, asked.place, Made::Ask(asked.ahead))
        }
        Phase::Queued(res) => {
            let polled = poll(rt, board, &mut player.seat);
            (res, polled.place, Made::Poll(polled.granted))
        }
        Phase::Holding(res) => (res, leave(rt, board, &mut player.seat), Made::Leave),
    };
    Some(Answered {
        res: res.0,
        place,
        is_step: !matches!(made, Made::Poll(_)),
        tick,
        core,
        made,
    })
}

/// A core's run to its end, if the others reach the barrier within a number of looks.
fn play(rt: &impl Abort, board: &Board, player: Player) -> Option<Player>
    requires { IsCoreSeatOn board.now player.seat × (board.now.size.resources ≡ 3) }
    ensures { IfSome result (λ p. IsCoreSeatOn board.now p.seat) }
{
    let mut player = player;
    let mut numbers = Numbers(u64::from(player.core));
    for _ in 0u32..100_000_000 {
        let SeatPhase::Waiting = player.seat.phase() else {
            break;
        };
        if look(rt, board, &mut player.seat) == Look::Go {
            if let Some(answered) = act(rt, board, &mut player, &mut numbers) {
                player.log.push(answered).ok()?;
            }
            arrive(rt, board, &mut player.seat);
        } else {
            thread::yield_now();
        }
    }
    let phase = player.seat.phase();
    assert_eq!(rt; phase, SeatPhase::Done);
    Some(player)
}

/// Each core on a thread of its own.
fn play_all<R: Threads + Abort + Sync>(
    rt: &R,
    board: &Board,
    players: Vec<Player>,
) -> Result<Vec<Option<Player>>, AllocError>
    requires { All (λ p. IsCoreSeatOn board.now p.seat) players.items × (board.now.size.resources ≡ 3) }
    ensures { IfOk result (λ v. All (λ o. IfSome o (λ p. IsCoreSeatOn board.now p.seat)) v.items) }
{
    thread::map_vec(
        rt,
        players,
        &|player: Player| -> Option<Player>
            requires { IsSync R.row × IsCoreSeatOn board.now player.seat × (board.now.size.resources ≡ 3) }
            ensures { IfSome result (λ p. IsCoreSeatOn board.entry.now p.seat) }
        { play(rt, board, player) },
    )
}

/// A first-in-first-out lock on one thread.
#[derive(Drop)]
struct Queue {
    cores: Vec<u32>,
    is_granted: bool,
    tick: u32,
    requests: u32,
    releases: u32,
}

impl Queue {
    /// Does the step if the lock gives this answer; whether it does.
    fn answers(&mut self, answered: Answered) -> Result<bool, AllocError> {
        let is_first = self.cores.first() == Some(&answered.core);
        let place = self.requests.wrapping_add(self.releases);
        let is_later = self.tick <= answered.tick;
        self.tick = answered.tick;
        let is_right = match answered.made {
            Made::Ask(ahead) => {
                let is_right = ahead as usize == self.cores.len()
                    && !self.cores.contains(&answered.core);
                self.cores.push(answered.core)?;
                self.is_granted = self.is_granted || ahead == 0;
                self.requests = self.requests.wrapping_add(1);
                is_right
            }
            Made::Poll(true) => {
                let is_right = is_first && !self.is_granted;
                self.is_granted = true;
                is_right
            }
            Made::Poll(false) => !is_first && self.cores.contains(&answered.core),
            Made::Leave => {
                let is_right = is_first && self.is_granted;
                if !self.cores.is_empty() {
                    self.cores.remove(0);
                }
                self.is_granted = false;
                self.releases = self.releases.wrapping_add(1);
                is_right
            }
        };
        Ok(is_right && is_later && place == answered.place)
    }
}

/// The number of requests and releases of one resource, if the answers are the lock's.
fn replay(alloc: Global, history: &[Answered], res: u32) -> Result<Option<(u32, u32)>, AllocError> {
    let mut queue = Queue {
        cores: Vec::new(alloc),
        is_granted: false,
        tick: 0,
        requests: 0,
        releases: 0,
    };
    for answered in history {
        if answered.res == res && !queue.answers(*answered)? {
            return Ok(None);
        }
    }
    Ok(Some((queue.requests, queue.releases)))
}

/// One seat with the books of all players.
fn gather_played(
    rt: &impl Abort,
    board: &Board,
    mut played: Vec<Option<Player>>,
    rest: BoardSeat,
) -> BoardSeat
    requires { All (λ o. IfSome o (λ p. IsCoreSeatOn board.now p.seat)) played.items × (rest.board ≡ board.now) }
    ensures { result.board ≡ board.now }
{
    let mut all = rest;
    while let Some(one) = played.pop() {
        let Some(player) = one else {
            panic!(rt; "want of memory")
        };
        all = board.join(all, player.seat);
    }
    all
}

/// The answers to the threads, one for each core, in the order of the histories, are those of a
/// one-thread lock. There are more of them than ticks, so the threads did something.
fn check_threads<R: Threads + Abort + Sync>(
    rt: &R,
    alloc: Global,
    cores: u32,
    ticks: u32,
) -> Result<(), Fail>
    requires { (1 ≤ cores) × (cores ≤ 8) × (1 ≤ ticks) × (ticks ≤ 20000) }
{
    let (board, seat) = board_of(rt, alloc, cores, 3, ticks);
    let (players, mut rest) = deal(rt, alloc, &board, seat, cores)?;
    open(rt, &board, &mut rest);
    let played = play_all(rt, &board, players)?;
    let mut history = Vec::new(alloc);
    for one in &played {
        if let Some(player) = one {
            for answered in &player.log {
                history.push(*answered)?;
            }
        }
    }
    let all = gather_played(rt, &board, played, rest);
    let settled = end(rt, board, cores, all);
    history.sort()?;
    assert!(rt; history.len() > ticks as usize);
    for res in 0u32..3 {
        let counts = replay(alloc, &history, res)?;
        assert_eq!(rt; counts, Some(settled.word(ResId(res))));
    }
    Ok(())
}

#[test]
fn two_threads_are_answered_as_by_a_queue(rt: HostRuntime) -> Result<(), Fail> {
    check_threads(&rt, rt.alloc(), 2, 500)
}

#[test]
fn eight_threads_are_answered_as_by_a_queue(rt: HostRuntime) -> Result<(), Fail> {
    check_threads(&rt, rt.alloc(), 8, 2000)
}
