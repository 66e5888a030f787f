// An edited board, and a walk over its tasks.
use board_model::Board;
use fills::{Fill, Task};
use std::sync::Arc;

/// A board and what edits made of it: the tasks of both in rank order, the fills of the one before, and for each task now whether
/// an edit dirtied it directly.
#[derive(Clone, Copy)]
pub struct Edited<'a> {
    pub filled: &'a Board,
    pub board: &'a Board,
    pub old_tasks: &'a [Task],
    pub tasks: &'a [Task],
    pub olds: &'a [Arc<Fill>],
    pub flags: &'a [bool],
}

/// The fills of the first tasks, for each whether its pieces are others than before, and how many were made anew.
#[derive(Drop)]
pub struct Walk {
    pub fills: Vec<Arc<Fill>>,
    pub changed: Vec<bool>,
    pub count: u32,
}
