// Which tasks a track or a via that comes or goes dirties.
ghost use Rattle.std.specs.Prelude.{◌≡◌, ◌↔◌, ◌<◌, length, map, IfOk, IsTrue};
ghost use Rattle.cores.specs.Room.{IsInRoom};
ghost use Rattle.hulls.specs.Hulls.{in_halves, corner};
ghost use Rattle.board_language.specs.Copper.{hulls_round};
ghost use Rattle.fill_rules.specs.Tasks.{ranked};
ghost use Rattle.fill_rules.specs.Needs.{track_copper, via_copper};
ghost use Rattle.fill_rules.specs.Edits.{IsTrackDirtying, IsViaDirtying};
ghost use Rattle.fills.specs.Fills.{task_of};
ghost use Rattle.knockouts.specs.Inner.Reach.{IsTrackInReach, IsViaInReach};
ghost use Rattle.dirtied.specs.Dirtied.{AreTaskFlags};
ghost use Rattle.dirtied.specs.Inner.Ranked.{AreTasks};

use crate::beside::is_beside;
use board_language::{Track, Via};
use board_model::Board;
use copper_shape::Shape;
use fills::Task;
use grid_num::{Memory, Point};
use knockouts::has_layer;
use octagon::Oct;
use std::alloc::Global;

/// Nanometres as halves.
fn in_halves(p: Point) -> Point
    requires { IsInRoom 500000000 p }
    ensures value { result ≡ corner (in_halves p) }
    ensures within { IsInRoom 2000000000 result }
{
    Point {
        x: p.x + p.x,
        y: p.y + p.y,
    }
}

/// The octagons that stand for a track.
fn track_hulls(alloc: Global, track: &Track) -> Result<Vec<Oct>, Memory>
    requires { IsTrackInReach track.now }
    ensures { IfOk result (λ v. v.items ≡ hulls_round (track_copper track.now)) }
{
    let copper = Shape::capsule(in_halves(track.from), in_halves(track.to), track.width);
    copper.hulls(alloc)
}

/// The octagon that stands for a via.
fn via_hulls(alloc: Global, via: &Via) -> Result<Vec<Oct>, Memory>
    requires { IsViaInReach via.now }
    ensures { IfOk result (λ v. v.items ≡ hulls_round (via_copper via.now)) }
{
    let copper = Shape::disc(in_halves(via.at), via.size);
    copper.hulls(alloc)
}

/// Whether a track with these hulls dirties the task of a rank, by its coming or going.
fn track_dirties(board: &Board, tasks: &[Task], rank: usize, track: &Track, hulls: &[Oct]) -> bool
    requires tasks { AreTasks board.now.board tasks.now }
    requires rank { rank < length tasks.now }
    requires hulls { hulls.now ≡ hulls_round (track_copper track.now) }
    ensures { IsTrue result ↔ IsTrackDirtying board.now.board rank track.now }
{
    let task = tasks[rank];
    track.layer == task.layer && is_beside(board, task, hulls)
}

/// Whether a via with these hulls does.
fn via_dirties(board: &Board, tasks: &[Task], rank: usize, via: &Via, hulls: &[Oct]) -> bool
    requires tasks { AreTasks board.now.board tasks.now }
    requires rank { rank < length tasks.now }
    requires hulls { hulls.now ≡ hulls_round (via_copper via.now) }
    ensures { IsTrue result ↔ IsViaDirtying board.now.board rank via.now }
{
    board.sound();
    let task = tasks[rank];
    has_layer(via.layers, task.layer) && is_beside(board, task, hulls)
}

/// Which of the board's tasks, in rank order, a track dirties that comes or goes.
///
/// # Errors
///
/// Want of memory.
pub fn by_track(
    alloc: Global,
    board: &Board,
    tasks: &[Task],
    track: &Track,
) -> Result<Vec<bool>, Memory>
    requires tasks { AreTasks board.now.board tasks.now }
    requires track { IsTrackInReach track.now }
    ensures { IfOk result (λ v. AreTaskFlags board.now.board (λ k. IsTrackDirtying board.now.board k track.now) v.items) }
{
    let hulls = track_hulls(alloc, track)?;
    let mut flags = Vec::new(alloc);
    'each: for rank in 0..tasks.len() {
        flags.push(track_dirties(board, tasks, rank, track, &hulls))?;
    }
    Ok(flags)
}

/// Which of them a via dirties.
///
/// # Errors
///
/// Want of memory.
pub fn by_via(alloc: Global, board: &Board, tasks: &[Task], via: &Via) -> Result<Vec<bool>, Memory>
    requires tasks { AreTasks board.now.board tasks.now }
    requires via { IsViaInReach via.now }
    ensures { IfOk result (λ v. AreTaskFlags board.now.board (λ k. IsViaDirtying board.now.board k via.now) v.items) }
{
    let hulls = via_hulls(alloc, via)?;
    let mut flags = Vec::new(alloc);
    'each: for rank in 0..tasks.len() {
        flags.push(via_dirties(board, tasks, rank, via, &hulls))?;
    }
    Ok(flags)
}
