// How the tasks of a board stand, and all that happened, without the fills.
ghost use Rattle.std.specs.Prelude.{◌≡◌, ◌⊎◌, ◌↔◌, ℕ, ◌<◌, ◌^◌, List, [], ◌∷◌, ◌++◌, length, map, IfSome, IfNone, IfOk, IsTrue, IsFalse, true};
ghost use Rattle.pool_rules.specs.declared.PoolEvent.TheVariants.{Take, Finish, Back};
ghost use Rattle.fill_pool.specs.Runs.{count_of, state_of, IsRunOf, IsHalted, IsNext, NoneReady, IsHeldBy, AllFinished, NoneHeld};
ghost use Rattle.fill_pool.specs.Inner.Tables.{IsTableOf};
ghost use Rattle.fills.specs.Above.{AreReaching};

use crate::Named;
use crate::slots::{all_done, first_ready, is_held_by, none_held};
use grid_num::Memory;
use pool_rules::{PoolEvent, Slot};
use std::alloc::Global;
use std::marker::{Model, PhantomData};

/// The tasks of the board with those that reach each, how each stands, and all that happened. Contracts see the history.
#[derive(Drop)]
pub struct Machine<N: Named> {
    slots: Vec<Slot>,
    table: Vec<Vec<u32>>,
    history: Vec<PoolEvent>,
    halted: bool,
    of: PhantomData<N>,
}

impl<N: Named> Model for Machine<N> {
    ghost use Rattle.std.specs.Prelude.{List, map, vec_capacity};
    ghost use Rattle.pool_rules.specs.declared.PoolEvent.{PoolEvent};
    ghost use Rattle.fill_pool.specs.Inner.Fields.{IsMachine};

    ghost Value = { List PoolEvent };

    ghost view = { λ m. m.history.items };

    ghost invariant = { λ m. IsMachine N.board m.slots.items (map (λ v. v.items) m.table.items)
        m.history.items m.halted (vec_capacity m.history) };
}

impl<N: Named> Machine<N> {
    /// All tasks wait. For each task the table has those that reach it.
    pub fn new(alloc: Global, table: Vec<Vec<u32>>) -> Result<Machine<N>, Memory>
        requires table { IsTableOf N.board (map (λ v. v.items) table.items) }
        requires few { length table.items < 2 ^ 32 }
        ensures { IfOk result (λ m. m ≡ []) }
    {
        let count = table.len();
        let slots = vec![in alloc; Slot::Waiting; count]?;
        let history = Vec::with_capacity(alloc, count + count)?;
        Ok(Machine {
            slots,
            table,
            history,
            halted: false,
            of: PhantomData,
        })
    }

    /// The worker takes the next task, where there is one.
    pub fn take(&mut self, worker: u32) -> Option<u32>
        ensures taken { IfSome result (λ i. self.new ≡ self.old ++ Take worker i ∷ []) }
        ensures next { IfSome result (λ i. IsNext N.board self.old i) }
        ensures held { IfSome result (λ i. IsHeldBy N.board self.new worker i) }
        ensures in_range { IfSome result (λ i. i < count_of N.board) }
        ensures none { IfNone result (self.new ≡ self.old) }
        ensures closed { IfNone result (IsHalted self.old ⊎ NoneReady N.board self.old) }
    {
        if self.halted {
            return None;
        }
        match first_ready(self.slots.as_slice(), self.table.as_slice()) {
            None => None,
            Some(number) => {
                self.slots[number as usize] = Slot::Held { worker };
                let _pushed = self.history.push(PoolEvent::Take {
                    worker,
                    task: number,
                });
                Some(number)
            }
        }
    }

    /// The worker finishes the task, where it holds it; whether it does.
    pub fn finish(&mut self, number: u32, worker: u32) -> bool
        ensures held { IsTrue result ↔ IsHeldBy N.board self.old worker number }
        ensures entered { IsTrue result → self.new ≡ self.old ++ Finish worker number ∷ [] }
        ensures stray { IsFalse result → self.new ≡ self.old }
    {
        if !is_held_by(self.slots.as_slice(), number as usize, worker) {
            return false;
        }
        self.slots[number as usize] = Slot::Finished;
        let _pushed = self.history.push(PoolEvent::Finish {
            worker,
            task: number,
        });
        true
    }

    /// The worker gives the task back, where it holds it; whether it does.
    pub fn give_back(&mut self, number: u32, worker: u32) -> bool
        ensures held { IsTrue result ↔ IsHeldBy N.board self.old worker number }
        ensures entered { IsTrue result → self.new ≡ self.old ++ Back worker number ∷ [] }
        ensures stray { IsFalse result → self.new ≡ self.old }
    {
        if !is_held_by(self.slots.as_slice(), number as usize, worker) {
            return false;
        }
        self.slots[number as usize] = Slot::Returned;
        self.halted = true;
        let _pushed = self.history.push(PoolEvent::Back {
            worker,
            task: number,
        });
        true
    }

    /// Whether all tasks are finished.
    pub fn is_done(&self) -> bool
        ensures { IsTrue result ↔ AllFinished N.board self.now }
    {
        all_done(self.slots.as_slice())
    }

    /// Whether no task is held.
    pub fn is_idle(&self) -> bool
        ensures { IsTrue result ↔ NoneHeld N.board self.now }
    {
        none_held(self.slots.as_slice())
    }

    /// Whether a task was given back.
    pub fn is_halted(&self) -> bool
        ensures { IsTrue result ↔ IsHalted self.now }
    {
        self.halted
    }

    /// All that happened.
    pub fn history(&self) -> &[PoolEvent]
        ensures value { result.now ≡ self.now }
        ensures lawful { IsRunOf N.board self.now }
    {
        self.history.as_slice()
    }

    /// The tasks that reach the task.
    pub fn reaching(&self, number: u32) -> &[u32]
        requires { number < count_of N.board }
        ensures value { AreReaching N.board number result.now }
        ensures lawful { IsRunOf N.board self.now }
    {
        self.table[number as usize].as_slice()
    }
}
