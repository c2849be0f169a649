//! The board, and the calls on it.

ghost use Rattle.std.specs.Prelude.{◌≡◌, ℕ, ◌+◌, ◌*◌, ◌<◌, ◌≤◌, List, [], ◌∷◌, All, Some, IfOk, IfSome, Err, MatchOption, MatchResult};
ghost use Rattle.std.specs.VecDeque.{deque_len, deque_capacity};
ghost use Rattle.q_session.specs.Done.{IsFinished};
ghost use Rattle.q_session.specs.Right.{IsRight};
ghost use Rattle.atomic_table.specs.Table.{rest};
ghost use Rattle.q_board.specs.Rule.{maker as making};
ghost use Rattle.q_board.specs.AskerModel.{opened_asker, opened_askers};
ghost use Rattle.q_board.specs.RunnerModel.{opened_runner, opened_runners};
ghost use Rattle.q_board.specs.Places.{times, jobs, bare};
ghost use Rattle.q_board.specs.Calls.{is_at, SameAsker, SameRunner, Offers, LooksOnly, Receives, Misses, Claims, Finishes, GivesBack};

use crate::cell::Content;
use crate::claim::Claim;
use crate::drowsy::Drowsy;
use crate::fault::{OpenFault, RowFull};
use crate::found::Found;
use crate::rule::{
    Finish, GiveBack, MakeAsker, MakeRunner, Order, Publish, See, Take, TakeHome, Try,
};
use crate::seats::{AskerSeat, ROW, RunnerSeat, Slot};
use crate::view::Holder;
use atomic_table::{Refused, Seat, Shared, Table};
use q_session::{Done, Job, Ran};
use std::alloc::{AllocError, Global};
use std::collections::VecDeque;
use std::sync::atomic::AtomicUsize;
use std::sync::atomic::Ordering::SeqCst;
use std::sync::{Condvar, Wait};
use std::time::Duration;

/// The most askers of a board.
pub const MOST_ASKERS: usize = 16;

/// The most runners of a board.
pub const MOST_RUNNERS: usize = 64;

/// A board, which its askers and runners share. Each asker has a row of eight slots. A bell wakes runners that sleep
/// while there are no jobs; no clause speaks of it.
pub struct Board {
    table: Table<Content, Holder, u64, Order, Global>,
    lanes: usize,
    // How many runners sleep, or look once more before they do.
    drowsy: AtomicUsize,
    // Rung where a slot was made ready and a runner is drowsy.
    bell: Condvar,
    ghost sized: { (table.shared.table_id.words ≡ lanes) × (table.shared.table_id.slots ≡ lanes) × (table.shared.key ≡ lanes) },
}

impl Drop for Board {
    // By hand, so that it is proved here alone, and not in each crate that drops one.
    fn drop(self) {
        let Board {
            table: _,
            lanes: _,
            drowsy: _,
            bell: _,
        } = self;
    }
}

impl Board {
    ghost use Rattle.q_board.specs.BoardId.{board_id};

    /// Opens a board, with a seat for each asker and each runner. Refused with 62 where there are not 1 to 16 askers
    /// and 1 to 64 runners, or with 99.
    pub fn open(
        alloc: Global,
        askers: usize,
        runners: usize,
    ) -> Result<(Board, Vec<AskerSeat>, Vec<RunnerSeat>), OpenFault>
        ensures askers { IfOk result (λ made. made.1.items ≡ opened_askers (board_id made.0) askers) }
        ensures runners { IfOk result (λ made. made.2.items ≡ opened_runners (board_id made.0) (8 * askers) askers runners) }
        ensures boards { IfOk result (λ made. All (λ s. s.table ≡ board_id made.0) made.1.items × All (λ s. s.table ≡ board_id made.0) made.2.items) }
        ensures counts { IfOk result (λ _. (1 ≤ askers) × (askers ≤ 16) × (1 ≤ runners) × (runners ≤ 64)) }
        ensures outside { ¬ ((1 ≤ askers) × (askers ≤ 16) × (1 ≤ runners) × (runners ≤ 64)) → result ≡ Err OpenFault.BadCount }
        ensures refused { result ≡ Err OpenFault.BadCount → ¬ ((1 ≤ askers) × (askers ≤ 16) × (1 ≤ runners) × (runners ≤ 64)) }
    {
        if askers < 1 || askers > MOST_ASKERS || runners < 1 || runners > MOST_RUNNERS {
            return Err(OpenFault::BadCount);
        }
        let (board, mut maker) = Board::lay(alloc, ROW * askers)?;
        let asker_seats = board.seat_askers(alloc, &mut maker, askers)?;
        let runner_seats = board.seat_runners(alloc, &mut maker, askers, runners)?;
        Ok((board, asker_seats, runner_seats))
    }

    /// Puts a job into a free slot of the seat's row. Refused with 61, and the same job, exactly where eight jobs of
    /// the seat are open: offered, and not yet received.
    pub fn offer(&self, seat: &mut AskerSeat, job: Job) -> Result<Slot, (RowFull, Job)>
        requires { seat.old.table ≡ board_id self.now }
        ensures offered { MatchResult result
            (λ slot. Offers seat.old slot.index job seat.new)
            (λ refused. (jobs seat.old.row ≡ 8) × (refused.1 ≡ job) × (seat.new ≡ seat.old)) }
        ensures own { IfOk result (λ slot. (8 * seat.old.number ≤ slot.index) × (slot.index < 8 * seat.old.number + 8)) }
        ensures count { IfOk result (λ _. jobs seat.new.row ≡ jobs seat.old.row + 1) }
        ensures same { SameAsker seat.old seat.new }
    {
        let Some(place) = seat.free.pop_front() else {
            return Err((RowFull, job));
        };
        let index = ROW * seat.number + place;
        let shared = &self.table.shared;
        put(&mut seat.seat, shared, index, Content::Offered(job));
        shared.store::<Publish>(&mut seat.seat, index, Found::Ready.word());
        self.ring();
        Ok(Slot { index })
    }

    /// Looks once at a slot of the seat's own. Where the look shows a finished job, takes its result, which is the
    /// right answer of the job that was open in the slot.
    pub fn poll(&self, seat: &mut AskerSeat, slot: Slot) -> Option<Done>
        requires board { seat.old.table ≡ board_id self.now }
        requires own { (8 * seat.old.number ≤ slot.index) × (slot.index < 8 * seat.old.number + 8) }
        ensures looked { MatchOption result (LooksOnly seat.old slot.index seat.new) (λ done. Receives seat.old slot.index done seat.new) }
        ensures right { IfSome result (λ done. IsFinished done) }
        ensures count { IfSome result (λ _. jobs seat.new.row + 1 ≡ jobs seat.old.row) }
        ensures same { SameAsker seat.old seat.new }
    {
        let index = slot.index;
        let finished = Found::Finished.word();
        let shared = &self.table.shared;
        if shared.load::<See>(&mut seat.seat, index) != finished {
            return None;
        }
        let empty = Found::Empty.word();
        shared.compare_exchange::<Take>(&mut seat.seat, index, finished, empty);
        let taken = shared.exchange(&mut seat.seat, index, Content::Vacant);
        seat.free.push_front_reserved(index - ROW * seat.number);
        match taken {
            Content::Finished(done) => {
                let _job = done.job();
                Some(done)
            }
            Content::Vacant | Content::Offered(_) => unreachable!(),
        }
    }

    /// Tries once to claim the job of a slot: there is a claim exactly where the slot was found ready.
    pub fn try_take(&self, seat: &mut RunnerSeat, slot: Slot) -> Option<Claim>
        requires board { seat.old.table ≡ board_id self.now }
        requires own { slot.index < seat.old.lanes }
        ensures tried { MatchOption result (Misses seat.old slot.index seat.new) (λ claim. (claim.slot ≡ slot.index) × Claims seat.old slot.index claim.job seat.new) }
        ensures held { IfSome result (λ claim. is_at seat.new.held claim.slot (Some claim.job)) }
        ensures same { SameRunner seat.old seat.new }
    {
        let index = slot.index;
        let ready = Found::Ready.word();
        let claimed = Found::Claimed(seat.number).word();
        let shared = &self.table.shared;
        if shared.compare_exchange::<Try>(&mut seat.seat, index, ready, claimed) != ready {
            return None;
        }
        let taken = shared.exchange(&mut seat.seat, index, Content::Vacant);
        seat.claims.push_front_reserved(index);
        match taken {
            Content::Offered(job) => Some(Claim { slot: index, job }),
            Content::Vacant | Content::Finished(_) => unreachable!(),
        }
    }

    /// Ends a claim of the seat with the right answer of its job, which then waits for the asker.
    pub fn finish(&self, seat: &mut RunnerSeat, claim: Claim, ran: Ran)
        requires board { seat.old.table ≡ board_id self.now }
        requires own { is_at seat.old.held claim.slot (Some claim.job) }
        requires right { IsRight claim.job.certified claim.job.view claim.job.start ran }
        ensures finished { Finishes seat.old claim.slot claim.job ran seat.new }
        ensures same { SameRunner seat.old seat.new }
    {
        let Claim { slot, job } = claim;
        let done = Done::of(job, ran);
        let cell = Content::Finished(done);
        let shared = &self.table.shared;
        fill(&mut seat.seat, &mut seat.claims, shared, slot, cell);
        shared.store::<Finish>(&mut seat.seat, slot, Found::Finished.word());
    }

    /// Ends a claim of the seat, and makes its slot ready with the same job.
    pub fn give_back(&self, seat: &mut RunnerSeat, claim: Claim)
        requires board { seat.old.table ≡ board_id self.now }
        requires own { is_at seat.old.held claim.slot (Some claim.job) }
        ensures back { GivesBack seat.old claim.slot seat.new }
        ensures same { SameRunner seat.old seat.new }
    {
        let Claim { slot, job } = claim;
        let cell = Content::Offered(job);
        let shared = &self.table.shared;
        fill(&mut seat.seat, &mut seat.claims, shared, slot, cell);
        shared.store::<GiveBack>(&mut seat.seat, slot, Found::Ready.word());
        self.ring();
    }

    /// Says that a runner is about to sleep. From now on, and until it is roused or has slept, each slot that is made
    /// ready rings the bell. So a runner that tries every slot once more behind this, and sleeps where none was ready,
    /// misses no job.
    pub fn drowse(&self) -> Drowsy {
        let _ = self.drowsy.fetch_add(1, SeqCst);
        Drowsy {
            rung: self.bell.notifications(),
        }
    }

    /// Sleeps until the bell is rung once more than it was as the runner grew drowsy, at most so long. It may return
    /// before.
    pub fn sleep<R: Wait>(&self, rt: &R, drowsy: Drowsy, most: Duration) {
        self.bell.sleep(rt, drowsy.rung, most);
        self.rouse(drowsy);
    }

    /// Says that a drowsy runner does not sleep.
    pub fn rouse(&self, drowsy: Drowsy) {
        let Drowsy { rung: _ } = drowsy;
        let _ = self.drowsy.fetch_sub(1, SeqCst);
    }

    /// Rings the bell for all runners that sleep, as the work ends.
    pub fn wake_all(&self) {
        self.bell.notify_all();
    }
}

impl Board {
    ghost use Rattle.q_board.specs.BoardId.{board_id};

    // An empty board, and the seat that makes the others.
    fn lay(alloc: Global, lanes: usize) -> Result<(Board, Seat<Content, Holder>), AllocError>
        requires { lanes ≤ 128 }
        ensures { IfOk result (λ made. (made.0.lanes ≡ lanes) × (made.1.table_id ≡ board_id made.0) × (made.1.me ≡ (making lanes 0, []))) }
    {
        let mut words = Vec::with_capacity(alloc, lanes)?;
        let mut cells = Vec::with_capacity(alloc, lanes)?;
        for _ in 0..lanes {
            words.push_reserved(0);
            cells.push_reserved(Content::Vacant);
        }
        let key = lanes as u64;
        match Table::new(alloc, &words, cells, &key) {
            Ok((table, seat)) => {
                let board = Board {
                    table,
                    lanes,
                    drowsy: AtomicUsize::new(0),
                    bell: Condvar::new(),
                };
                Ok((board, seat))
            }
            Err(Refused { slots: _ }) => Err(AllocError),
        }
    }

    // Wakes a runner where one sleeps or is about to. The slot was made ready before: a runner that grew drowsy behind
    // this look sees it. Both go by one order of all such steps, which a weaker order of memory would not give.
    #[inline(always)]
    fn ring(&self) {
        if self.drowsy.load(SeqCst) > 0 {
            self.bell.notify_one();
        }
    }

    // A seat for each asker.
    fn seat_askers(
        &self,
        alloc: Global,
        maker: &mut Seat<Content, Holder>,
        askers: usize,
    ) -> Result<Vec<AskerSeat>, AllocError>
        requires board { maker.old.table_id ≡ board_id self.now }
        requires next { (maker.old.me ≡ (making self.now.lanes 0, [])) × (8 * askers ≤ self.now.lanes) × (self.now.lanes ≤ 128) }
        ensures maker { (maker.new.table_id ≡ maker.old.table_id) × (IfOk result (λ _. maker.new.me ≡ (making self.now.lanes askers, []))) }
        ensures seats { IfOk result (λ seats. seats.items ≡ opened_askers (board_id self.now) askers) }
    {
        let mut seats = Vec::with_capacity(alloc, askers)?;
        for number in 0..askers {
            let seat = self.seat_asker(alloc, maker, number)?;
            seats.push_reserved(seat);
        }
        Ok(seats)
    }

    // A seat for each runner, behind those of the askers.
    fn seat_runners(
        &self,
        alloc: Global,
        maker: &mut Seat<Content, Holder>,
        askers: usize,
        runners: usize,
    ) -> Result<Vec<RunnerSeat>, AllocError>
        requires board { maker.old.table_id ≡ board_id self.now }
        requires next { (maker.old.me ≡ (making self.now.lanes askers, [])) × (askers + runners ≤ 128) × (0 < self.now.lanes) × (self.now.lanes ≤ 128) }
        ensures seats { IfOk result (λ seats. seats.items ≡ opened_runners (board_id self.now) self.now.lanes askers runners) }
    {
        let mut seats = Vec::with_capacity(alloc, runners)?;
        for made in 0..runners {
            let seat = self.seat_runner(alloc, maker, askers + made)?;
            seats.push_reserved(seat);
        }
        Ok(seats)
    }

    // The next asker takes its row.
    fn seat_asker(
        &self,
        alloc: Global,
        maker: &mut Seat<Content, Holder>,
        number: usize,
    ) -> Result<AskerSeat, AllocError>
        requires board { maker.old.table_id ≡ board_id self.now }
        requires next { (maker.old.me ≡ (making self.now.lanes number, [])) × (8 * number + 8 ≤ self.now.lanes) × (self.now.lanes ≤ 128) }
        ensures maker { (maker.new.table_id ≡ maker.old.table_id) × (IfOk result (λ _. maker.new.me ≡ (making self.now.lanes (number + 1), []))) }
        ensures seat { IfOk result (λ s. s ≡ opened_asker (board_id self.now) number) }
    {
        let mut free = VecDeque::with_capacity(alloc, ROW)?;
        let mut seat = self.table.shared.split_seat::<MakeAsker>(maker);
        for place in 0..ROW {
            self.table
                .shared
                .load::<TakeHome>(&mut seat, ROW * number + place);
            free.push_front_reserved(place);
        }
        Ok(AskerSeat { seat, number, free })
    }

    // The next runner, after so many seats.
    fn seat_runner(
        &self,
        alloc: Global,
        maker: &mut Seat<Content, Holder>,
        made: usize,
    ) -> Result<RunnerSeat, AllocError>
        requires board { maker.old.table_id ≡ board_id self.now }
        requires next { (maker.old.me ≡ (making self.now.lanes made, [])) × (made < 128) × (0 < self.now.lanes) × (self.now.lanes ≤ 128) }
        ensures maker { (maker.new.table_id ≡ maker.old.table_id) × (IfOk result (λ _. maker.new.me ≡ (making self.now.lanes (made + 1), []))) }
        ensures seat { IfOk result (λ s. s ≡ opened_runner (board_id self.now) self.now.lanes (made + 1)) }
    {
        let claims = VecDeque::with_capacity(alloc, self.lanes)?;
        let seat = self.table.shared.split_seat::<MakeRunner>(maker);
        Ok(RunnerSeat {
            seat,
            number: made as u32 + 1,
            claims,
            lanes: self.lanes,
            next: 0,
        })
    }
}

// Puts something into the slot that the seat took last.
#[inline(always)]
fn put(
    seat: &mut Seat<Content, Holder>,
    shared: &Shared<Content, Holder, u64, Order>,
    slot: usize,
    cell: Content,
)
    requires { (seat.old.table_id ≡ shared.now.table_id) × ((old : Content) × (seat.old.me.1 ≡ (slot, old) ∷ rest seat.old.me.1)) }
    ensures board { seat.new.table_id ≡ seat.old.table_id }
    ensures seat { seat.new.id ≡ seat.old.id }
    ensures there { seat.new.me ≡ (seat.old.me.0, (slot, cell) ∷ rest seat.old.me.1) }
{
    *seat.slot_mut(shared, slot) = cell;
}

// Takes a claimed slot off the claims and puts something into it; the seat has it before all others.
#[inline(always)]
fn fill(
    seat: &mut Seat<Content, Holder>,
    claims: &mut VecDeque<usize>,
    shared: &Shared<Content, Holder, u64, Order>,
    slot: usize,
    cell: Content,
)
    requires { (seat.old.table_id ≡ shared.now.table_id) × (seat.old.me.1 ≡ bare 0 claims.old.items) × (0 < times slot claims.old.items) }
    ensures same { (seat.new.table_id ≡ seat.old.table_id) × (seat.new.id ≡ seat.old.id) }
    ensures there { seat.new.me ≡ (seat.old.me.0, (slot, cell) ∷ bare 0 claims.new.items) }
    ensures claims { (k : ℕ) → times k claims.old.items ≡ times k (slot ∷ claims.new.items) }
    ensures room { (deque_capacity claims.new ≡ deque_capacity claims.old) × (deque_len claims.new + 1 ≡ deque_len claims.old) }
{
    bring(seat, claims, slot);
    put(seat, shared, slot, cell);
}

// Brings a claimed slot to the front of the seat, and takes it off the claims.
fn bring(seat: &mut Seat<Content, Holder>, claims: &mut VecDeque<usize>, slot: usize)
    requires { (seat.old.me.1 ≡ bare 0 claims.old.items) × (0 < times slot claims.old.items) }
    ensures same { (seat.new.table_id ≡ seat.old.table_id) × (seat.new.id ≡ seat.old.id) × (seat.new.me.0 ≡ seat.old.me.0) }
    ensures front { seat.new.me.1 ≡ bare 0 (slot ∷ claims.new.items) }
    ensures claims { (k : ℕ) → times k claims.old.items ≡ times k (slot ∷ claims.new.items) }
    ensures room { (deque_capacity claims.new ≡ deque_capacity claims.old) × (deque_len claims.new + 1 ≡ deque_len claims.old) }
{
    while let Some(first) = claims.pop_front() {
        if first == slot {
            return;
        }
        claims.push_back_reserved(first);
        seat.turn();
    }
    unreachable!()
}
