// Which tasks one edit dirties directly.
ghost use Rattle.std.specs.Prelude.{◌≡◌, IfOk};
ghost use Rattle.board_items.specs.Stamps.{stamped};
ghost use Rattle.dirtied.specs.Dirtied.{AreTaskFlags, AreDirtied};
ghost use Rattle.dirtied.specs.Inner.Ranked.{AreTasks};
ghost use Rattle.dirtied.specs.Inner.Named.{IsDirtyingCopper, IsDirtyingNamed};

use crate::named::{by_named_track, by_named_via, by_named_zone, track_with, via_with, zone_with};
use board_edit::Edit;
use board_model::Board;
use fills::Task;
use grid_num::Memory;
use knockouts::tasks;
use std::alloc::Global;

/// Which tasks of the new board the going of a track or via of the old one dirties, by its stamp.
fn by_dropped(
    alloc: Global,
    old: &Board,
    new: &Board,
    tasks: &[Task],
    stamp: &[u8],
) -> Result<Vec<bool>, Memory>
    requires { AreTasks new.now.board tasks.now }
    ensures { IfOk result (λ v. AreTaskFlags new.now.board (IsDirtyingCopper old.now.board new.now.board (stamped old.now.stamps stamp.now)) v.items) }
{
    let track = track_with(old, stamp);
    if track.is_some() {
        by_named_track(alloc, new, tasks, track)
    } else {
        by_named_via(alloc, new, tasks, via_with(old, stamp))
    }
}

/// Which tasks of the new board an edit dirties, by what has its stamp.
#[tactic(auto, unfolding(crate::specs::Inner::Named::IsDirtyingNamed))]
fn by_stamp(
    alloc: Global,
    old: &Board,
    new: &Board,
    tasks: &[Task],
    edit: &Edit,
) -> Result<Vec<bool>, Memory>
    requires { AreTasks new.now.board tasks.now }
    ensures { IfOk result (λ v. AreTaskFlags new.now.board (IsDirtyingNamed old.now new.now edit.now) v.items) }
{
    match edit {
        Edit::Track { stamp, .. } => {
            by_named_track(alloc, new, tasks, track_with(new, stamp.bytes()))
        }
        Edit::Via { stamp, .. } => by_named_via(alloc, new, tasks, via_with(new, stamp.bytes())),
        Edit::Drop { stamp } => by_dropped(alloc, old, new, tasks, stamp.bytes()),
        Edit::Priority { stamp, .. } | Edit::Clearance { stamp, .. } => {
            by_named_zone(alloc, old, new, tasks, zone_with(old, stamp.bytes()))
        }
    }
}

/// For each task of the new board, in rank order, whether the edit dirties it directly. The old board is the one before the
/// edit, the new one that after it. It costs about as many steps as there are tasks and, for a track, hulls of each.
///
/// # Errors
///
/// Want of memory.
pub fn dirtied(alloc: Global, old: &Board, new: &Board, edit: &Edit) -> Result<Vec<bool>, Memory>
    ensures { IfOk result (λ v. AreDirtied old.now new.now edit.now v.items) }
{
    let tasks = tasks(alloc, new)?;
    by_stamp(alloc, old, new, &tasks, edit)
}
