// What no clause says of workers: that they fill beside each other, that one waits where it finds nothing to take while
// a task is held, and that each task's gate is passed once. Two workers fill each board.
//
// At the gate the tasks note that they came, and some of them look there for each other, up to a number of looks. A body
// that works on one thread, fills under the lock, or ends a worker while a task is held lets no two of them meet.
use crate::boards::{board, board_of, zone};
use board_gen::generate;
use board_model::Board;
use fill_pool::{Gate, fill_with};
use std::alloc::Global;
use std::str;
use std::sync::Wait;
use std::sync::atomic::{AtomicU64, Ordering};
use std::test::Fail;
use std::thread::Threads;

const LOOKS: u32 = 200_000_000;

// How often something happened.
#[derive(Drop)]
struct Count(AtomicU64);

impl Count {
    fn none() -> Count {
        Count(AtomicU64::new(0))
    }

    fn note(&self) {
        self.0.fetch_add(1, Ordering::SeqCst);
    }

    fn read(&self) -> u64 {
        self.0.load(Ordering::SeqCst)
    }

    // Whether it happened, now or while there are looks left.
    fn comes(&self) -> bool {
        for _look in 0..LOOKS {
            if self.read() > 0 {
                return true;
            }
        }
        false
    }
}

// Tasks 0 and 1, which look for each other.
#[derive(Drop)]
struct Pair {
    first: Count,
    second: Count,
    met: Count,
    other: Count,
}

impl Pair {
    fn new() -> Pair {
        Pair {
            first: Count::none(),
            second: Count::none(),
            met: Count::none(),
            other: Count::none(),
        }
    }

    fn meet(&self, own: &Count, other: &Count) {
        own.note();
        if other.comes() {
            self.met.note();
        }
    }

    // How often the first task came, and the second, how many of them met the other, and how often any other task came.
    fn counts(&self) -> [u64; 4] {
        [
            self.first.read(),
            self.second.read(),
            self.met.read(),
            self.other.read(),
        ]
    }
}

impl Gate for Pair {
    fn enter(&self, _worker: u32, task: u32) {
        if task == 0 {
            self.meet(&self.first, &self.second);
        } else if task == 1 {
            self.meet(&self.second, &self.first);
        } else {
            self.other.note();
        }
    }
}

// Whether two workers make so many fills.
fn are_filled<R: Threads + Wait + Sync, G: Gate + Sync>(
    rt: &R,
    alloc: Global,
    board: &Board,
    gate: &G,
    count: usize,
) -> Result<bool, Fail> {
    let fills = fill_with(rt, alloc, board, 2, gate)?;
    Ok(fills.len() == count)
}

// The board that is made by rule of seed 0 and size 1: a zone on each of two layers.
fn least_board(alloc: Global) -> Result<Board, Fail> {
    let text = generate(alloc, 0, 1)?;
    board(alloc, str::from_utf8(&text)?)
}

// Whether both tasks came once and met.
fn two_meet<R: Threads + Wait + Sync>(rt: &R, alloc: Global) -> Result<bool, Fail> {
    let board = least_board(alloc)?;
    let gate = Pair::new();
    let filled = are_filled(rt, alloc, &board, &gate, 2)?;
    Ok(filled && gate.counts() == [1, 1, 2, 0])
}

// Neither task waits for the other.
#[test]
fn two_layers_are_filled_side_by_side(rt: HostRuntime) -> Result<(), Fail> {
    let met = two_meet(&rt, rt.alloc())?;
    assert!(rt; met);
    Ok(())
}

// Task 0, which reaches two others, and these, which look for each other.
#[derive(Drop)]
struct OneOverTwo {
    upper: Count,
    never: Count,
    early: Count,
    lower: Pair,
}

impl OneOverTwo {
    fn new() -> OneOverTwo {
        OneOverTwo {
            upper: Count::none(),
            never: Count::none(),
            early: Count::none(),
            lower: Pair::new(),
        }
    }

    // It keeps its worker for all looks, so that the other worker finds nothing to take while this task is held.
    fn linger(&self) {
        self.upper.note();
        if self.never.comes() {
            self.never.note();
        }
    }

    // How often task 0 came, and how often another came before it.
    fn counts(&self) -> [u64; 2] {
        [self.upper.read(), self.early.read()]
    }
}

impl Gate for OneOverTwo {
    fn enter(&self, worker: u32, task: u32) {
        if task == 0 {
            self.linger();
            return;
        }
        if self.upper.read() == 0 {
            self.early.note();
        }
        self.lower.enter(worker, task - 1);
    }
}

// Three zones in a row. The first, of priority 1, lies across the ends of the two others, which lie 0.5 mm apart:
//
//     |   2    |  |    3    |
//          |  1  |
//     0    4   5 5.5 6     10
fn three_zones(alloc: Global) -> Result<Board, Fail> {
    let zones = vec![in alloc;
        zone(alloc, 1, 1, "F.Cu", "4", "6")?,
        zone(alloc, 2, 0, "F.Cu", "0", "5")?,
        zone(alloc, 3, 0, "F.Cu", "5.5", "10")?,
    ]?;
    board_of(alloc, &zones)
}

// Whether each task came once, the first before the two others, and these met.
fn two_meet_below_one<R: Threads + Wait + Sync>(rt: &R, alloc: Global) -> Result<bool, Fail> {
    let board = three_zones(alloc)?;
    let gate = OneOverTwo::new();
    let filled = are_filled(rt, alloc, &board, &gate, 3)?;
    Ok(filled && gate.counts() == [1, 0] && gate.lower.counts() == [1, 1, 2, 0])
}

// The second and the third task wait for the first, and neither of them for the other.
#[test]
fn two_tasks_wait_for_one_and_are_filled_side_by_side(rt: HostRuntime) -> Result<(), Fail> {
    let met = two_meet_below_one(&rt, rt.alloc())?;
    assert!(rt; met);
    Ok(())
}
