// How a pool goes on, event by event.
ghost use Rattle.std.specs.Prelude.{◌≡◌, ◌<◌, IfOk, IfSome, map};
ghost use Rattle.std.specs.Arc.{arc_value};
ghost use Rattle.fills.specs.Fills.{task_of, IsFillOf};
ghost use Rattle.fills.specs.Above.{AreFillsAbove, AreFillsAboveTask};
ghost use Rattle.zone_fill.specs.Task.{IsFillOfTask};

use crate::boards::{board_of, zone};
use board_model::Board;
use fill_pool::laws::ticket_law;
use fill_pool::{Named, Pool, Ticket};
use fills::{Fill, Task};
use grid_num::Memory;
use std::alloc::Global;
use std::marker::Brand;
use std::sync::Arc;
use std::sync::ledger::{Blank, Ledger};
use std::test::Fail;
use step_count::Steps;
use zone_fill::fill_task;

fn is_send_and_sync<T: Send + Sync>(_value: &T) {}

// For every name of a board a ticket can be sent to other threads and shared with them.
fn ticket_is_send_and_sync<N: Named + Send + Sync>(ticket: &Ticket<N>) {
    is_send_and_sync(ticket);
}

// The fill of a task, with the count that the blank begins.
fn made<L: Ledger>(
    alloc: Global,
    board: &Board,
    task: Task,
    above: &[Arc<Fill>],
    blank: Blank,
) -> Result<Fill, Memory>
    requires above { AreFillsAboveTask board.now.board (task_of task) (map arc_value above.now) }
    requires name { blank.name ≡ L.name }
    requires parts { blank.parts ≡ L.parts }
    requires some { 0 < blank.parts }
    ensures { IfOk result (λ fill. IsFillOfTask board.now.board (task_of task) fill) }
{
    let mut steps = Steps::<L>::new(blank);
    fill_task(alloc, board, task, above, &mut steps)
}

// The fill of the ticket's task.
fn filled<N: Named>(
    alloc: Global,
    board: &Board,
    ticket: &Ticket<N>,
    above: &[Arc<Fill>],
) -> Result<Arc<Fill>, Memory>
    requires named { board.now.board ≡ N.board }
    requires above { AreFillsAbove N.board ticket.now.number (map arc_value above.now) }
    ensures { IfOk result (λ fill. IsFillOf N.board ticket.now.number (arc_value fill)) }
{
    ticket_law();
    let _number = ticket.number();
    let fill = made::<Brand>(alloc, board, ticket.task(), above, Blank::new(1))?;
    Ok(Arc::new(alloc, fill)?)
}

// The worker takes a task, where there is one, and lists the fills above it.
fn taken<N: Named>(
    pool: &mut Pool<N>,
    worker: u32,
    above: &mut Vec<Arc<Fill>>,
) -> Result<Option<Ticket<N>>, Memory>
    ensures { IfOk result (λ ticket. IfSome ticket (λ t.
        AreFillsAbove N.board t.number (map arc_value above.new.items))) }
{
    match pool.take(worker) {
        None => Ok(None),
        Some(ticket) => {
            pool.above(&ticket, above)?;
            Ok(Some(ticket))
        }
    }
}

// Fills the ticket's task and hands it in.
fn finish<N: Named>(
    alloc: Global,
    board: &Board,
    pool: &mut Pool<N>,
    ticket: Ticket<N>,
    above: &[Arc<Fill>],
) -> Result<(), Memory>
    requires named { board.now.board ≡ N.board }
    requires above { AreFillsAbove N.board ticket.number (map arc_value above.now) }
{
    let fill = filled(alloc, board, &ticket, above)?;
    pool.finish(ticket, fill);
    Ok(())
}

// What a worker was handed: the task's rank, its own number, and how many fills stand above the task.
#[derive(Clone, Copy, PartialEq, Eq, Debug)]
struct Leave {
    task: u32,
    worker: u32,
    above: usize,
}

fn handed(task: u32, worker: u32, above: usize) -> Leave {
    Leave {
        task,
        worker,
        above,
    }
}

// The worker takes a task and finishes it.
fn worked_by<N: Named>(
    alloc: Global,
    board: &Board,
    pool: &mut Pool<N>,
    worker: u32,
) -> Result<Option<Leave>, Memory>
    requires { board.now.board ≡ N.board }
{
    let mut above = Vec::new(alloc);
    match taken(pool, worker, &mut above)? {
        None => Ok(None),
        Some(ticket) => {
            let handed = handed_of(&ticket, &above);
            finish(alloc, board, pool, ticket, &above)?;
            Ok(Some(handed))
        }
    }
}

// The worker takes a task; meanwhile another finds nothing to take; then the task is finished.
fn worked_alone<N: Named>(
    alloc: Global,
    board: &Board,
    pool: &mut Pool<N>,
    worker: u32,
    other: u32,
) -> Result<Option<Leave>, Memory>
    requires { board.now.board ≡ N.board }
{
    let mut above = Vec::new(alloc);
    match taken(pool, worker, &mut above)? {
        None => Ok(None),
        Some(ticket) => {
            if pool.take(other).is_some() || pool.is_idle() {
                return Ok(None);
            }
            let handed = handed_of(&ticket, &above);
            finish(alloc, board, pool, ticket, &above)?;
            Ok(Some(handed))
        }
    }
}

// The worker takes a task and gives it back.
fn given_back_by<N: Named>(
    alloc: Global,
    pool: &mut Pool<N>,
    worker: u32,
) -> Result<Option<Leave>, Memory> {
    let mut above = Vec::new(alloc);
    match taken(pool, worker, &mut above)? {
        None => Ok(None),
        Some(ticket) => {
            let handed = handed_of(&ticket, &above);
            pool.give_back(ticket);
            Ok(Some(handed))
        }
    }
}

fn handed_of<N: Named>(ticket: &Ticket<N>, above: &[Arc<Fill>]) -> Leave {
    handed(ticket.number(), ticket.worker(), above.len())
}

// How a pool stands.
#[derive(Clone, Copy, PartialEq, Eq, Debug)]
struct Standing {
    halted: bool,
    idle: bool,
    done: bool,
    events: usize,
}

fn standing_of<N: Named>(pool: &Pool<N>) -> Standing {
    Standing {
        halted: pool.is_halted(),
        idle: pool.is_idle(),
        done: pool.is_done(),
        events: pool.history().len(),
    }
}

// Three zones of different nets in a row, each overlapping the next: the first of priority 2, the others of 1.
fn row_of_three(alloc: Global) -> Result<Board, Fail> {
    let zones = vec![in alloc;
        zone(alloc, 1, 2, "F.Cu", "0", "4")?,
        zone(alloc, 2, 1, "F.Cu", "2", "7")?,
        zone(alloc, 3, 1, "F.Cu", "5", "10")?,
    ]?;
    board_of(alloc, &zones)
}

// Whether nothing is taken any more, whichever worker asks.
fn is_closed<N: Named>(pool: &mut Pool<N>) -> bool {
    pool.take(1).is_none() && pool.take(2).is_none() && pool.take(3).is_none()
}

// The first task is worked while another worker waits, the second is given back, and then all workers ask.
fn one_given_back<N: Named>(alloc: Global, board: &Board) -> Result<bool, Memory>
    requires { board.now.board ≡ N.board }
{
    let mut pool = Pool::<N>::new(alloc, board)?;
    let first = worked_alone(alloc, board, &mut pool, 1, 2)?;
    let second = given_back_by(alloc, &mut pool, 2)?;
    let closed = is_closed(&mut pool);
    let end = Standing {
        halted: true,
        idle: true,
        done: false,
        events: 4,
    };
    Ok(
        closed
            && first == Some(handed(0, 1, 0))
            && second == Some(handed(1, 2, 1))
            && standing_of(&pool) == end,
    )
}

// The first task reaches the second, and the second the third. Once the second is given back nothing is taken any more.
#[test]
fn nothing_is_taken_after_a_task_was_given_back(rt: HostRuntime) -> Result<(), Fail> {
    let board = row_of_three(rt.alloc())?;
    let as_wanted = one_given_back::<Brand>(rt.alloc(), &board)?;
    assert!(rt; as_wanted);
    Ok(())
}

// Two zones of different nets on the first layer that overlap, and one on the last layer.
fn two_layers(alloc: Global) -> Result<Board, Fail> {
    let zones = vec![in alloc;
        zone(alloc, 1, 0, "F.Cu", "0", "6")?,
        zone(alloc, 2, 0, "F.Cu", "4", "10")?,
        zone(alloc, 3, 0, "B.Cu", "0", "10")?,
    ]?;
    board_of(alloc, &zones)
}

// While one worker holds a task, another takes one and finishes it; then the first finishes its own.
fn worked_across<N: Named>(
    alloc: Global,
    board: &Board,
    pool: &mut Pool<N>,
) -> Result<Option<(u32, Leave)>, Memory>
    requires { board.now.board ≡ N.board }
{
    let mut above = Vec::new(alloc);
    match taken(pool, 1, &mut above)? {
        None => Ok(None),
        Some(ticket) => {
            let number = ticket.number();
            let other = worked_alone(alloc, board, pool, 2, 3)?;
            finish(alloc, board, pool, ticket, &above)?;
            Ok(other.map(|handed| (number, handed)))
        }
    }
}

// Three workers fill the board, the third after the two others.
fn filled_by_three<N: Named + Send + Sync>(alloc: Global, board: &Board) -> Result<bool, Memory>
    requires { board.now.board ≡ N.board }
{
    let mut pool = Pool::<N>::new(alloc, board)?;
    let two = worked_across(alloc, board, &mut pool)?;
    let last = worked_by(alloc, board, &mut pool, 3)?;
    is_send_and_sync(&pool);
    let end = Standing {
        halted: false,
        idle: true,
        done: true,
        events: 6,
    };
    Ok(
        two == Some((0, handed(2, 2, 0)))
            && last == Some(handed(1, 3, 1))
            && standing_of(&pool) == end,
    )
}

// The second zone's task waits for the first one's, though the third zone's task, on another layer, has a later rank.
#[test]
fn a_task_waits_for_those_that_reach_it(rt: HostRuntime) -> Result<(), Fail> {
    let board = two_layers(rt.alloc())?;
    let as_wanted = filled_by_three::<Brand>(rt.alloc(), &board)?;
    assert!(rt; as_wanted);
    Ok(())
}
