//! What lies behind the lock: the board with its pending work, and the next task of a node.

ghost use Rattle.std.specs.Prelude.{◌≡◌, length, IfSome};
ghost use Rattle.pm_cluster.specs.Next.{IsNext};
ghost use Rattle.pm_board.specs.Boards.{board_state};
ghost use Rattle.pm_turns.specs.declared.posting.Posted.TheVariants as outcome;

use crate::pending::Pending;
use crate::sleeping::Berth;
use pm_agent::Made;
use pm_bid::ArrayBid;
use pm_board::Board;
use pm_device::Next;
use pm_market::Line;
use pm_plan::Plan;
use pm_tree::NodeId;
use pm_turns::{Posted, newest_line, next_of, post_made};

/// What lies behind the lock.
#[derive(Drop)]
pub(crate) struct Desk<'p> {
    pub(crate) board: Board<'p>,
    pub(crate) pending: Pending,
    /// The run was given up: the threads end, and the caller makes the moves that are left.
    pub(crate) halted: bool,
}

/// A change that a device is to make, and the plan that has the bids of the manual devices.
#[derive(Clone, Copy)]
pub(crate) struct Job<'p> {
    pub(crate) next: Next,
    pub(crate) plan: &'p Plan,
}

/// What a node is to do in a turn.
#[derive(Clone, Copy)]
pub(crate) enum Task<'p> {
    Nothing,
    Change(Job<'p>),
    Move,
    Close,
}

impl<'p> Desk<'p> {
    /// A board with what is pending on it.
    pub(crate) fn new(board: Board<'p>, pending: Pending) -> Desk<'p> {
        let mut pending = pending;
        pending.open_phase(&board);
        Desk {
            board,
            pending,
            halted: false,
        }
    }

    /// Whether the threads are to end.
    pub(crate) fn is_over(&self) -> bool {
        self.halted || self.board.done()
    }

    /// Gives the run up.
    pub(crate) fn halt(&mut self) {
        self.halted = true;
        self.pending.wake_all();
    }

    /// Whether a node need not sleep: it has work, or the phase is to be closed.
    pub(crate) fn has_task(&self, node: u32) -> bool {
        self.pending.is_quiet() || self.pending.has_work(node)
    }

    /// Whether one of these nodes need not sleep.
    pub(crate) fn has_any_task(&self, nodes: &[u32]) -> bool {
        nodes.iter().any(|node| self.has_task(*node))
    }

    /// What a node is to do.
    pub(crate) fn task_of(&mut self, node: u32) -> Task<'p> {
        if self.is_over() {
            return Task::Nothing;
        }
        if self.pending.is_quiet() {
            return Task::Close;
        }
        if self.pending.may_change(node) {
            return self.change_of(node);
        }
        if self.pending.has_work(node) {
            return Task::Move;
        }
        Task::Nothing
    }

    /// The change of a device that has one.
    fn change_of(&mut self, node: u32) -> Task<'p> {
        match self.job_of(node) {
            Some(job) => Task::Change(job),
            None => {
                self.halt();
                Task::Nothing
            }
        }
    }

    /// The next change of a node, where it is a device of the board's plan and has one.
    pub(crate) fn job_of(&self, node: u32) -> Option<Job<'p>>
        ensures next { let s = board_state self.now.board in
            IfSome result
            (λ job. IsNext self.now.board.plan s.closed s.counts job.next.device job.next) }
        ensures its { IfSome result (λ job. job.next.device ≡ node) }
    {
        let plan = self.board.plan();
        let next = next_of(&self.board, node)?;
        Some(Job { next, plan })
    }

    /// Makes a move of a node.
    pub(crate) fn move_node(&mut self, node: u32) -> Option<Line> {
        let plan = self.board.plan();
        if node > plan.tree().len() {
            self.halt();
            return None;
        }
        let Ok(made) = self.board.turn(NodeId(node)) else {
            self.halt();
            return None;
        };
        match made {
            Some(line) => self.pending.moved(plan, line.what),
            None => self.pending.found_nothing(node),
        }
        made
    }

    /// Makes the change of a device. Where it is not the device's next one the run goes on: the device's next turn is of the
    /// change that the board then names.
    pub(crate) fn post(&mut self, made: Made) -> (Option<Line>, ArrayBid)
        ensures goes_on { let s = board_state self.old.board in
            (IsNext self.old.board.plan s.closed s.counts made.next.device made.next → ⊥) →
            length made.demand ≡ self.old.board.plan.basis.steps →
            self.new.halted ≡ self.old.halted }
        ensures same_length { length result.1 ≡ length made.demand }
    {
        if self.is_over() {
            return (None, made.into_demand());
        }
        if made.demand().steps() != self.board.plan().basis().steps() {
            self.halt();
            return (None, made.into_demand());
        }
        let next = made.next();
        let (posted, other) = post_made(&mut self.board, made);
        (self.tell(posted, next), other)
    }

    /// What is pending follows what came of posting a change, and its line is told.
    fn tell(&mut self, posted: Posted, made: Next) -> Option<Line>
        ensures goes_on { (posted ≡ outcome.Unfit → ⊥) → self.new.halted ≡ self.old.halted }
    {
        match posted {
            Posted::Made => self.posted(made),
            Posted::Stale => None,
            Posted::Unfit => {
                self.halt();
                None
            }
        }
    }

    /// A change was made: what is pending follows it, and its line is told.
    fn posted(&mut self, made: Next) -> Option<Line>
        ensures goes_on { self.new.halted ≡ self.old.halted }
    {
        let more = self.job_of(made.device).is_some();
        self.pending.changed(made, more);
        newest_line(&self.board)
    }

    /// Whether the phase is to be closed.
    pub(crate) fn may_close(&self) -> bool {
        !self.is_over() && self.pending.is_quiet()
    }

    /// Closes the open phase where nothing is pending, and opens the next one.
    pub(crate) fn close_if_quiet(&mut self) -> Option<Line> {
        if !self.may_close() {
            return None;
        }
        self.close()
    }

    /// Closes the open phase, and opens the next one.
    pub(crate) fn close(&mut self) -> Option<Line> {
        let Ok(true) = self.board.close() else {
            self.halt();
            return None;
        };
        if self.board.done() {
            self.pending.wake_all();
        } else {
            self.pending.open_phase(&self.board);
        }
        newest_line(&self.board)
    }

    /// Notes that a node sleeps, and gives the bell at which it does.
    pub(crate) fn lay(&mut self, node: u32) -> u32 {
        let berth = self.berth_of(node);
        self.pending.sleep(node, berth.bell);
        berth.bell
    }

    /// The same for a node that is near its next work; any other node stays awake.
    pub(crate) fn lay_near(&mut self, node: u32) -> Option<u32> {
        let berth = self.berth_of(node);
        if !berth.near {
            return None;
        }
        self.pending.sleep(node, berth.bell);
        Some(berth.bell)
    }

    /// Where a node without work goes to sleep.
    fn berth_of(&self, node: u32) -> Berth {
        let closed = self.board.ends().len();
        self.pending.berth_of(self.board.plan(), closed, node)
    }

    /// Notes that nodes sleep at the caller's bell, and gives it.
    pub(crate) fn lay_all(&mut self, nodes: &[u32]) -> u32 {
        let bell = self.pending.caller_bell();
        for node in nodes {
            self.pending.sleep(*node, bell);
        }
        bell
    }

    /// Notes that nodes are awake.
    pub(crate) fn rise_all(&mut self, nodes: &[u32]) {
        for node in nodes {
            self.pending.rise(*node);
        }
    }
}
