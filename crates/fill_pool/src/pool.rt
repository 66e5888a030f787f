// The pool of a board's tasks.
ghost use Rattle.std.specs.Prelude.{◌≡◌, ◌⊎◌, ◌↔◌, ◌<◌, ◌^◌, List, [], ◌∷◌, ◌++◌, length, map, IfSome, IfNone, IfOk, OnErr, IsTrue};
ghost use Rattle.std.specs.Arc.{arc_value};
ghost use Rattle.fill_rules.specs.Tasks.{ranked, task_at};
ghost use Rattle.pool_rules.specs.declared.PoolEvent.TheVariants.{Take, Finish, Back};
ghost use Rattle.fills.specs.Fills.{task_of, IsFillOf, AreBoardFills};
ghost use Rattle.fill_pool.specs.Runs.{IsRunOf, IsHalted, IsNext, NoneReady, AllFinished, NoneHeld, IsHolding};
ghost use Rattle.fill_pool.specs.Inner.Tables.{IsTableOf};
ghost use Rattle.fills.specs.Above.{AreFillsAbove};

use crate::copies::{copy_row, into_all, no_fills};
use crate::machine::Machine;
use crate::table::table_of;
use crate::{Named, Ticket};
use board_model::Board;
use fills::{Fill, Task};
use grid_num::Memory;
use knockouts::tasks;
use pool_rules::PoolEvent;
use std::alloc::Global;
use std::marker::Model;
use std::sync::Arc;

/// The tasks of the named board, how each stands, and the fills that were handed in. Its history is a lawful run over the
/// board's tasks, and each finished task has its fill. Contracts see the pool as its history.
#[derive(Drop)]
pub struct Pool<N: Named> {
    machine: Machine<N>,
    tasks: Vec<Task>,
    fills: Vec<Option<Arc<Fill>>>,
    // empty, with room for all fills
    all: Vec<Arc<Fill>>,
}

impl<N: Named> Model for Pool<N> {
    ghost use Rattle.std.specs.Prelude.{List, map, vec_capacity};
    ghost use Rattle.std.specs.Arc.{arc_value};
    ghost use Rattle.pool_rules.specs.declared.PoolEvent.{PoolEvent};
    ghost use Rattle.fills.specs.Fills.{task_of};
    ghost use Rattle.fill_pool.specs.Inner.Slots.{filled};
    ghost use Rattle.fill_pool.specs.Inner.Fields.{IsPool};

    ghost Value = { List PoolEvent };

    ghost view = { λ p. p.machine };

    ghost invariant = { λ p. IsPool N.board p.machine (map task_of p.tasks.items)
        (map filled p.fills.items) (map arc_value p.all.items) (vec_capacity p.all) };
}

impl<N: Named> Pool<N> {
    /// The pool in which all tasks of the board wait. The board is the one that N names. All memory that the pool needs, other
    /// than for `above`, is taken here.
    ///
    /// # Errors
    ///
    /// Want of memory.
    pub fn new(alloc: Global, board: &Board) -> Result<Pool<N>, Memory>
        requires named { board.now.board ≡ N.board }
        ensures { IfOk result (λ p. p ≡ []) }
    {
        let tasks = tasks(alloc, board)?;
        few_tasks(board, &tasks);
        let table = table_of(alloc, board, &tasks)?;
        Pool::of_tasks(alloc, tasks, table)
    }

    // The pool of these tasks, which are the board's in rank order, with the ranks of the tasks that reach each.
    fn of_tasks(alloc: Global, tasks: Vec<Task>, table: Vec<Vec<u32>>) -> Result<Pool<N>, Memory>
        requires tasks { map task_of tasks.items ≡ ranked N.board }
        requires table { IsTableOf N.board (map (λ row. row.items) table.items) }
        requires few { length table.items < 2 ^ 32 }
        ensures { IfOk result (λ p. p ≡ []) }
    {
        let count = tasks.len();
        let machine = Machine::new(alloc, table)?;
        let fills = no_fills(alloc, count)?;
        let all = Vec::with_capacity(alloc, count)?;
        Ok(Pool {
            machine,
            tasks,
            fills,
            all,
        })
    }

    /// The worker takes the next task: the first in rank order that waits and whose reaching tasks are all finished. None
    /// comes exactly where there is no such task, or where a task was ever given back.
    pub fn take(&mut self, worker: u32) -> Option<Ticket<N>>
        ensures taken { IfSome result (λ t. self.new ≡ self.old ++ Take worker t.number ∷ []) }
        ensures next { IfSome result (λ t. IsNext N.board self.old t.number) }
        ensures task { IfSome result (λ t. t.task ≡ task_at N.board t.number) }
        ensures worker { IfSome result (λ t. t.worker ≡ worker) }
        ensures held { IfSome result (λ t. IsHolding N.board self.new t) }
        ensures none { IfNone result (self.new ≡ self.old) }
        ensures closed { IfNone result (IsHalted self.old ⊎ NoneReady N.board self.old) }
    {
        match self.machine.take(worker) {
            None => None,
            Some(number) => Some(Ticket::of(self.tasks[number as usize], number, worker)),
        }
    }

    /// Replaces what the list holds by the fills of exactly the tasks that reach the ticket's task, in rank order.
    ///
    /// # Errors
    ///
    /// Want of memory; the list is then empty.
    pub fn above(&self, ticket: &Ticket<N>, into: &mut Vec<Arc<Fill>>) -> Result<(), Memory>
        requires { IsHolding N.board self.now ticket.now }
        ensures fills { IfOk result (λ _. AreFillsAbove N.board ticket.now.number
            (map arc_value into.new.items)) }
        ensures empty { OnErr result (into.new.items ≡ []) }
    {
        into.clear();
        let row = self.machine.reaching(ticket.number());
        match copy_row(&self.fills, row, into) {
            Ok(()) => Ok(()),
            Err(memory) => {
                into.clear();
                Err(memory)
            }
        }
    }

    /// Enters the fill of the ticket's task, where the pool holds the ticket's number for the ticket's worker; else nothing
    /// changes.
    pub fn finish(&mut self, ticket: Ticket<N>, fill: Arc<Fill>)
        requires { IsHolding N.board self.old ticket
            → IsFillOf N.board ticket.number (arc_value fill) }
        ensures held { IsHolding N.board self.old ticket
            → self.new ≡ self.old ++ Finish ticket.worker ticket.number ∷ [] }
        ensures stray { (IsHolding N.board self.old ticket → ⊥) → self.new ≡ self.old }
    {
        let number = ticket.number();
        if self.machine.finish(number, ticket.worker()) {
            self.fills[number as usize] = Some(fill);
        }
    }

    /// Takes the ticket's task back unfinished, where the pool holds the ticket's number for the ticket's worker; else nothing
    /// changes. From then on no task is taken.
    pub fn give_back(&mut self, ticket: Ticket<N>)
        ensures held { IsHolding N.board self.old ticket
            → self.new ≡ self.old ++ Back ticket.worker ticket.number ∷ [] }
        ensures stray { (IsHolding N.board self.old ticket → ⊥) → self.new ≡ self.old }
    {
        let _held = self.machine.give_back(ticket.number(), ticket.worker());
    }

    /// Whether all tasks are finished.
    pub fn is_done(&self) -> bool
        ensures { IsTrue result ↔ AllFinished N.board self.now }
    {
        self.machine.is_done()
    }

    /// Whether no task is held.
    pub fn is_idle(&self) -> bool
        ensures { IsTrue result ↔ NoneHeld N.board self.now }
    {
        self.machine.is_idle()
    }

    /// Whether a task was given back.
    pub fn is_halted(&self) -> bool
        ensures { IsTrue result ↔ IsHalted self.now }
    {
        self.machine.is_halted()
    }

    /// All that happened, in order: a lawful run over the board's tasks, so with at most two events a task.
    pub fn history(&self) -> &[PoolEvent]
        ensures value { result.now ≡ self.now }
        ensures lawful { IsRunOf N.board self.now }
    {
        self.machine.history()
    }

    /// The fills of all tasks, in rank order.
    pub fn into_fills(self) -> Vec<Arc<Fill>>
        requires { AllFinished N.board self }
        ensures { AreBoardFills N.board (map arc_value result.items) }
    {
        let Pool {
            machine: _,
            tasks: _,
            fills,
            all,
        } = self;
        into_all(fills, all)
    }
}

// A board has at most 2,000 zones on at most 32 layers, so it has few tasks.
fn few_tasks(board: &Board, tasks: &[Task])
    requires { map task_of tasks.now ≡ ranked board.now.board }
    ensures { length tasks.now < 2 ^ 32 }
{
    board.sound();
    let _count = tasks.len();
}
