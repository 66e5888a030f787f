// Workers that fill a board's tasks, with the pool behind one lock.
ghost use Rattle.std.specs.Prelude.{◌≡◌, ◌+◌, ◌<◌, ◌≤◌, length, map, IfOk, IfSome};
ghost use Rattle.std.specs.Arc.{arc_value};
ghost use Rattle.std.specs.Thread.{IsSync};
ghost use Rattle.fills.specs.Fills.{IsFillOf, AreBoardFills};
ghost use Rattle.fill_pool.specs.Inner.Workers.{HasAbove};

use crate::filling::{filled, filled_alone};
use crate::{Named, Pool, Ticket};
use board_model::Board;
use fills::Fill;
use grid_num::Memory;
use std::alloc::Global;
use std::marker::Brand;
use std::sync::{Arc, Condvar, Mutex, Wait};
use std::thread::{Threads, join};

/// What a worker passes, outside the lock, before it fills a task: once for each task that is filled.
pub trait Gate {
    fn enter(&self, worker: u32, task: u32);
}

/// The gate that stands open.
#[derive(Clone, Copy)]
pub struct OpenGate;

impl Gate for OpenGate {
    fn enter(&self, _worker: u32, _task: u32) {}
}

/// The pool under its one lock, and the signal that a task was finished or given back.
#[derive(Drop)]
struct Shared<N: Named> {
    pool: Mutex<Pool<N>>,
    changed: Condvar,
}

/// What a worker does next.
#[derive(Drop)]
enum Next<N: Named> {
    Fill(Ticket<N>),
    GiveBack(Ticket<N>),
    Again,
    End,
}

// In one hold of the lock, takes a task and lists the fills above it; where there is no memory for the list, the task is to be
// given back. Where there is no task to take while one is held, waits for the signal.
fn take_next<N: Named, R: Wait>(
    rt: &R,
    shared: &Shared<N>,
    worker: u32,
    above: &mut Vec<Arc<Fill>>,
) -> Next<N>
    ensures { HasAbove N.board result (map arc_value above.new.items) }
{
    let mut pool = shared.pool.lock(rt);
    match pool.take(worker) {
        Some(ticket) => match pool.above(&ticket, above) {
            Ok(()) => Next::Fill(ticket),
            Err(_) => Next::GiveBack(ticket),
        },
        None => {
            if pool.is_idle() {
                return Next::End;
            }
            let _pool = shared.changed.wait(rt, pool);
            Next::Again
        }
    }
}

// Hands in the fill of the ticket's task.
fn hand_in<N: Named, R: Wait>(rt: &R, shared: &Shared<N>, ticket: Ticket<N>, fill: Arc<Fill>)
    requires { IsFillOf N.board ticket.number (arc_value fill) }
{
    shared.pool.lock(rt).finish(ticket, fill);
    shared.changed.notify_all();
}

// Gives the ticket's task back.
fn hand_back<N: Named, R: Wait>(rt: &R, shared: &Shared<N>, ticket: Ticket<N>) {
    shared.pool.lock(rt).give_back(ticket);
    shared.changed.notify_all();
}

// Fills tasks until there is nothing to take and nothing is held.
fn work<N: Named, G: Gate, R: Wait>(
    rt: &R,
    alloc: Global,
    board: &Board,
    shared: &Shared<N>,
    gate: &G,
    worker: u32,
) -> Result<(), Memory>
    requires named { board.now.board ≡ N.board }
{
    let mut above = Vec::new(alloc);
    for _ in rt.forever() {
        match take_next(rt, shared, worker, &mut above) {
            Next::Fill(ticket) => {
                gate.enter(worker, ticket.number());
                match filled(alloc, board, &ticket, &above) {
                    Ok(fill) => hand_in(rt, shared, ticket, fill),
                    Err(memory) => {
                        hand_back(rt, shared, ticket);
                        return Err(memory);
                    }
                }
            }
            Next::GiveBack(ticket) => {
                hand_back(rt, shared, ticket);
                return Err(Memory);
            }
            Next::Again => {}
            Next::End => return Ok(()),
        }
    }
    unreachable!()
}

// So many workers side by side, numbered from the first one on.
fn work_together<N: Named + Send + Sync, G: Gate + Sync, R: Threads + Wait + Sync>(
    rt: &R,
    alloc: Global,
    board: &Board,
    shared: &Shared<N>,
    gate: &G,
    first: u32,
    count: u32,
) -> Result<(), Memory>
    requires named { board.now.board ≡ N.board }
    requires some { 1 ≤ count }
    requires few { first + count ≤ 64 }
{
    if count == 1 {
        return work(rt, alloc, board, shared, gate, first);
    }
    let half = count / 2;
    let rest = count - half;
    let middle = first + half;
    let (one, two) = join(
        rt,
        || -> Result<(), Memory>
            requires { IsSync R.row × (board.now.board ≡ N.board)
                × (1 ≤ half) × (first + half ≤ 64) }
        { work_together(rt, alloc, board, shared, gate, first, half) },
        || -> Result<(), Memory>
            requires { IsSync R.row × (board.now.board ≡ N.board)
                × (1 ≤ rest) × (middle + rest ≤ 64) }
        { work_together(rt, alloc, board, shared, gate, middle, rest) },
    );
    one?;
    two
}

// Fills the tasks of the board that N names by so many workers. None comes where tasks are left over.
fn by_workers<N: Named + Send + Sync, G: Gate + Sync, R: Threads + Wait + Sync>(
    rt: &R,
    alloc: Global,
    board: &Board,
    workers: u32,
    gate: &G,
) -> Result<Option<Vec<Arc<Fill>>>, Memory>
    requires named { board.now.board ≡ N.board }
    requires some { 1 ≤ workers }
    requires few { workers ≤ 64 }
    ensures { IfOk result (λ done. IfSome done (λ fills.
        AreBoardFills board.now.board (map arc_value fills.items))) }
{
    let shared = Shared {
        pool: Mutex::new(Pool::<N>::new(alloc, board)?),
        changed: Condvar::new(),
    };
    work_together(rt, alloc, board, &shared, gate, 0, workers)?;
    let pool = shared.pool.into_inner();
    if !pool.is_done() {
        return Ok(None);
    }
    Ok(Some(pool.into_fills()))
}

/// The fills of all tasks of the board, in rank order, made by so many workers. It may wait. No clause rules out that tasks are
/// left over when all workers have ended; then they are made one after another.
///
/// # Errors
///
/// Want of memory.
pub fn fill_with<R: Threads + Wait + Sync, G: Gate + Sync>(
    rt: &R,
    alloc: Global,
    board: &Board,
    workers: u32,
    gate: &G,
) -> Result<Vec<Arc<Fill>>, Memory>
    requires some { 1 ≤ workers }
    requires few { workers ≤ 64 }
    ensures { IfOk result (λ fills. AreBoardFills board.now.board (map arc_value fills.items)) }
{
    match by_workers::<Brand, G, R>(rt, alloc, board, workers, gate)? {
        Some(fills) => Ok(fills),
        None => filled_alone(alloc, board),
    }
}
