//! A slot.
ghost use Rattle.std.specs.Prelude.{ℕ, ◌≡◌, ◌≤◌, ◌<◌, ◌^◌, ◌-◌, ◌+◌, List, [], length, IfOk};
ghost use Rattle.std.specs.Borrow.{sem};
ghost use Rattle.respawn_window.specs.Starts.{with_start, Remembers};
ghost use Rattle.helper_core.specs.Starting.{start_of, is_go, after_start, has_turn};

use crate::state::{Start, State};
use ack_queue::AckQueue;
use answers::NoMemory;
use respawn_window::Window;
use std::alloc::Global;
use std::marker::Model;

/// A slot for a helper's process.
///
/// A contract sees its state, the replies that wait, the starts that its window keeps, whether the process may be
/// started more than once and was started since it was placed, and how often the slot started a process so far. The
/// clauses on `start` speak of all starts since the process was placed.
#[derive(Drop)]
pub struct Slot {
    state: State,
    queue: AckQueue,
    window: Window,
    respawn: bool,
    started: bool,
    count: u64,
}

impl Model for Slot {
    ghost use Rattle.helper_core.specs.Helper.{Helper};

    ghost Value = { Helper };

    ghost view = { λ slot. record {
      state = slot.state;
      replies = slot.queue;
      starts = slot.window;
      respawn = slot.respawn;
      started = slot.started;
      count = slot.count;
    } };
}

impl Slot {
    ghost use Rattle.helper_core.specs.Helper.{new_slot, placed, removed};
    ghost use Rattle.helper_core.specs.Incarnations.{deafened, ended, is_running};
    ghost use Rattle.helper_core.specs.Lending.{LendsQueue};

    /// A slot that has no process, and had none.
    pub fn new(alloc: Global) -> Result<Slot, NoMemory>
        ensures slot { IfOk result (λ slot. slot ≡ new_slot) }
        ensures window { IfOk result (λ slot. Remembers [] slot.starts) }
    {
        Ok(Slot {
            state: State::Absent,
            queue: AckQueue::new(alloc)?,
            window: Window::new(),
            respawn: true,
            started: false,
            count: 0,
        })
    }

    /// Whether this incarnation runs and isn't deaf.
    pub fn runs(&self, inc: u64) -> bool
        ensures { result ≡ is_running inc self.now.state }
    {
        self.state == State::Running(inc)
    }

    /// How often the slot started a process: the last incarnation, or 0 where there was none.
    pub fn last(&self) -> u64
        ensures { result ≡ self.now.count }
    {
        self.count
    }

    /// How many replies wait.
    pub fn queued(&self) -> usize
        ensures value { result ≡ length self.now.replies }
        ensures small { length self.now.replies ≤ 1024 }
    {
        self.queue.len()
    }

    /// The replies that wait.
    pub fn queue(&mut self) -> &mut AckQueue
        ensures* writes_back { sem 𝓛 (LendsQueue self.entry result) }
        ensures value { result.now ≡ self.old.replies }
    {
        &mut self.queue
    }

    /// Gives the slot a process that doesn't run yet, in the place of any other: no reply waits, and no start counts
    /// but in the number of the next incarnation. `respawn` says whether it may be started more than once.
    pub fn place(&mut self, respawn: bool)
        ensures slot { self.new ≡ placed respawn self.old }
        ensures window { Remembers [] self.new.starts }
    {
        self.remove();
        self.state = State::Idle;
        self.respawn = respawn;
    }

    /// Takes the slot's process away, with the replies that wait and its starts.
    pub fn remove(&mut self)
        ensures slot { self.new ≡ removed self.old }
        ensures window { Remembers [] self.new.starts }
    {
        self.state = State::Absent;
        self.queue.clear();
        self.window = Window::new();
        self.started = false;
    }

    /// Starts the process at a moment in milliseconds, if it may be started: then no reply waits. It may be where fewer
    /// than five of its starts lie within the 60,000 milliseconds before, it may be started more than once or wasn't
    /// yet, and there is another number. An idle process that may not be started is given up.
    pub fn start(&mut self, now: u64) -> Start
        ensures answer { (starts : List ℕ) → Remembers starts self.old.starts →
            result ≡ start_of starts now self.old }
        ensures slot { self.new ≡ after_start result self.new.starts self.old }
        ensures window { (starts : List ℕ) → Remembers starts self.old.starts →
            Remembers (with_start (is_go result) starts now) self.new.starts }
    {
        match self.state {
            State::Absent => Start::Absent,
            State::Running(_) | State::Deaf(_) => Start::Running,
            State::GivenUp => Start::GiveUp,
            State::Idle => self.start_idle(now),
        }
    }

    /// Says that an incarnation reads no more replies. If it is the last one, none waits for it any more; if it runs,
    /// it is deaf.
    pub fn deaf(&mut self, inc: u64)
        ensures { self.new ≡ deafened inc self.old }
    {
        if inc != 0 && inc == self.count {
            self.queue.clear();
        }
        if self.runs(inc) {
            self.state = State::Deaf(inc);
        }
    }

    /// Says that an incarnation is no more. Replies that wait for it stay.
    pub fn gone(&mut self, inc: u64)
        ensures { self.new ≡ ended inc self.old }
    {
        if self.state == State::Running(inc) || self.state == State::Deaf(inc) {
            self.state = State::Idle;
        }
    }

    // Starts a process that doesn't run and wasn't given up, or gives it up.
    fn start_idle(&mut self, now: u64) -> Start
        requires { self.old.state ≡ State.Idle }
        ensures answer { (starts : List ℕ) → Remembers starts self.old.starts →
            result ≡ start_of starts now self.old }
        ensures slot { self.new ≡ after_start result self.new.starts self.old }
        ensures window { (starts : List ℕ) → Remembers starts self.old.starts →
            Remembers (with_start (is_go result) starts now) self.new.starts }
    {
        if self.has_turn() && self.window.ask(now) {
            return self.go();
        }
        self.state = State::GivenUp;
        Start::GiveUp
    }

    // Whether the process may be started as far as its earlier starts go, whenever they were.
    fn has_turn(&self) -> bool
        ensures { result ≡ has_turn self.now }
    {
        (self.respawn || !self.started) && self.count < u64::MAX
    }

    // Makes the next incarnation.
    fn go(&mut self) -> Start
        requires { self.old.count < 2 ^ 64 - 1 }
        ensures answer { result ≡ Start.Go (self.old.count + 1) }
        ensures slot { self.new ≡ after_start result self.old.starts self.old }
    {
        self.count += 1;
        self.started = true;
        self.queue.clear();
        self.state = State::Running(self.count);
        Start::Go(self.count)
    }
}
