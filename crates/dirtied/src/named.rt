// What a stamp stands for on a board, and what that dirties.
ghost use Rattle.std.specs.Prelude.{◌≡◌, option_map, IfOk, IfSome};
ghost use Rattle.board_items.specs.Stamps.{stamped};
ghost use Rattle.knockouts.specs.Inner.Reach.{IsTrackInReach, IsViaInReach};
ghost use Rattle.dirtied.specs.Dirtied.{AreTaskFlags};
ghost use Rattle.dirtied.specs.Inner.Ranked.{AreTasks};
ghost use Rattle.dirtied.specs.Inner.Named.{track_in, via_in, zone_number_in, IsDirtyingTrack, IsDirtyingVia, IsDirtyingZone};

use crate::copper::{by_track, by_via};
use crate::zones::by_zone;
use board_language::{Stamped, Track, Via};
use board_model::Board;
use fills::Task;
use grid_num::Memory;
use std::alloc::Global;

/// The track that has the stamp.
pub fn track_with<'a>(board: &'a Board, stamp: &[u8]) -> Option<&'a Track>
    ensures value { option_map (λ t. t.now) result ≡ track_in board.now.board (stamped board.now.stamps stamp.now) }
    ensures reach { IfSome result (λ t. IsTrackInReach t.now) }
{
    board.sound();
    match board.stamp_of(stamp) {
        Some(Stamped::Track(number)) => board.tracks().get(number as usize),
        Some(Stamped::Via(_) | Stamped::Zone(_) | Stamped::Other) | None => None,
    }
}

/// The via that has it.
pub fn via_with<'a>(board: &'a Board, stamp: &[u8]) -> Option<&'a Via>
    ensures value { option_map (λ v. v.now) result ≡ via_in board.now.board (stamped board.now.stamps stamp.now) }
    ensures reach { IfSome result (λ v. IsViaInReach v.now) }
{
    board.sound();
    match board.stamp_of(stamp) {
        Some(Stamped::Via(number)) => board.vias().get(number as usize),
        Some(Stamped::Track(_) | Stamped::Zone(_) | Stamped::Other) | None => None,
    }
}

/// The number of the copper zone that has it.
pub fn zone_with(board: &Board, stamp: &[u8]) -> Option<u32>
    ensures { result ≡ zone_number_in (stamped board.now.stamps stamp.now) }
{
    match board.stamp_of(stamp) {
        Some(Stamped::Zone(number)) => Some(number),
        Some(Stamped::Track(_) | Stamped::Via(_) | Stamped::Other) | None => None,
    }
}

/// Flags of which none is set.
fn no_flags(alloc: Global, board: &Board, tasks: &[Task]) -> Result<Vec<bool>, Memory>
    requires { AreTasks board.now.board tasks.now }
    ensures { IfOk result (λ v. AreTaskFlags board.now.board (λ k. ⊥) v.items) }
{
    Ok(vec![in alloc; false; tasks.len()]?)
}

/// Which of the board's tasks the track dirties, where there is one.
///
/// # Errors
///
/// Want of memory.
pub fn by_named_track(
    alloc: Global,
    board: &Board,
    tasks: &[Task],
    track: Option<&Track>,
) -> Result<Vec<bool>, Memory>
    requires tasks { AreTasks board.now.board tasks.now }
    requires track { IfSome track (λ t. IsTrackInReach t.now) }
    ensures { IfOk result (λ v. AreTaskFlags board.now.board (IsDirtyingTrack board.now.board (option_map (λ t. t.now) track.entry)) v.items) }
{
    match track {
        Some(track) => by_track(alloc, board, tasks, track),
        None => no_flags(alloc, board, tasks),
    }
}

/// Which of them the via dirties, where there is one.
///
/// # Errors
///
/// Want of memory.
pub fn by_named_via(
    alloc: Global,
    board: &Board,
    tasks: &[Task],
    via: Option<&Via>,
) -> Result<Vec<bool>, Memory>
    requires tasks { AreTasks board.now.board tasks.now }
    requires via { IfSome via (λ v. IsViaInReach v.now) }
    ensures { IfOk result (λ v. AreTaskFlags board.now.board (IsDirtyingVia board.now.board (option_map (λ v. v.now) via.entry)) v.items) }
{
    match via {
        Some(via) => by_via(alloc, board, tasks, via),
        None => no_flags(alloc, board, tasks),
    }
}

/// Which of the new board's tasks a new priority or clearance of the zone of this number dirties, where there is one.
///
/// # Errors
///
/// Want of memory.
pub fn by_named_zone(
    alloc: Global,
    old: &Board,
    new: &Board,
    tasks: &[Task],
    zone: Option<u32>,
) -> Result<Vec<bool>, Memory>
    requires { AreTasks new.now.board tasks.now }
    ensures { IfOk result (λ v. AreTaskFlags new.now.board (IsDirtyingZone old.now.board new.now.board zone) v.items) }
{
    match zone {
        Some(zone) => by_zone(alloc, old, new, tasks, zone),
        None => no_flags(alloc, new, tasks),
    }
}
