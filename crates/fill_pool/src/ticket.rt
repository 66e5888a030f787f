// Leave to fill one task.
ghost use Rattle.std.specs.Prelude.{◌≡◌, ◌<◌};
ghost use Rattle.fill_rules.specs.Tasks.{task_at};
ghost use Rattle.fills.specs.Fills.{task_of};
ghost use Rattle.fill_pool.specs.Runs.{count_of};

use crate::Named;
use fills::Task;
use std::marker::{Model, PhantomData};

/// Leave to fill one task of the board, for one worker. It can't be copied: it is used up when the task is finished or given
/// back. Contracts see the task, its rank and the worker.
#[derive(Drop)]
pub struct Ticket<N: Named> {
    task: Task,
    number: u32,
    worker: u32,
    of: PhantomData<N>,
}

impl<N: Named> Model for Ticket<N> {
    ghost use Rattle.std.specs.Prelude.{◌≡◌, ◌<◌};
    ghost use Rattle.fill_rules.specs.Tasks.{task_at};
    ghost use Rattle.fills.specs.Fills.{task_of};
    ghost use Rattle.fill_pool.specs.Runs.{Leave, count_of};

    ghost Value = { Leave };

    ghost view = { λ t. record { task = task_of t.task; number = t.number; worker = t.worker } };

    ghost invariant = { λ t. (t.number < count_of N.board)
        × (task_of t.task ≡ task_at N.board t.number) };
}

impl<N: Named> Ticket<N> {
    // The ticket of the task of this rank.
    pub(crate) fn of(task: Task, number: u32, worker: u32) -> Ticket<N>
        requires in_range { number < count_of N.board }
        requires task { task_of task ≡ task_at N.board number }
        ensures { result ≡ record { task = task_of task; number = number; worker = worker } }
    {
        Ticket {
            task,
            number,
            worker,
            of: PhantomData,
        }
    }

    /// The task.
    pub fn task(&self) -> Task
        ensures value { task_of result ≡ self.now.task }
        ensures ranked { task_of result ≡ task_at N.board self.now.number }
    {
        self.task
    }

    /// The task's rank, from 0.
    pub fn number(&self) -> u32
        ensures value { result ≡ self.now.number }
        ensures in_range { result < count_of N.board }
    {
        self.number
    }

    /// The worker that took the task.
    pub fn worker(&self) -> u32
        ensures { result ≡ self.now.worker }
    {
        self.worker
    }
}
