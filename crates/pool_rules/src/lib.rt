//! The pool of tasks that workers fill: what may happen in it, one event after another, whichever worker comes when.
//! The crates above use the definitions of `specs/` and the laws that the functions here state; nothing here runs.
//! Tasks are numbers by rank, from 0; workers are any numbers.
#![tactic(auto)]

ghost use Rattle.pool_rules.specs.Laws.{GoodRunsLaw, HeldLaw, OneTakeLaw, EventsLaw};

/// What happens to a task.
#[derive(Clone, Copy, Drop)]
pub enum PoolEvent {
    /// The worker takes the task, to fill it.
    Take { worker: u32, task: u32 },
    /// The worker hands in the task's fill.
    Finish { worker: u32, task: u32 },
    /// The worker gives the task back, without a fill.
    Back { worker: u32, task: u32 },
}

/// How a task stands.
#[derive(Clone, Copy, Drop)]
pub enum Slot {
    Waiting,
    Held { worker: u32 },
    Finished,
    Returned,
}

/// In every lawful run, of any length and with any workers, a task is finished at most once, by a worker that took it,
/// after all tasks that reach it; and it goes on while something isn't finished, nothing is held and nothing was given back.
pub fn runs_law()
    ensures { GoodRunsLaw }
{}

/// While a task is held, every task that reaches it stays finished.
pub fn held_law()
    ensures { HeldLaw }
{}

/// At no time may more than one task be taken, whoever asks.
pub fn take_law()
    ensures { OneTakeLaw }
{}

/// What each event does: to its own task, and to no other.
pub fn events_law()
    ensures { EventsLaw }
{}
