// Which tasks may change which.
ghost use Rattle.std.specs.Prelude.{◌≡◌, ◌↔◌, ◌⊎◌, ◌<◌, ◌≤◌, ℕ, length, true, IsTrue};
ghost use Rattle.plane.specs.Plane.{AreNear, IsOct};
ghost use Rattle.hulls.specs.Cells.{around};
ghost use Rattle.fill_rules.specs.Tasks.{settings_of};
ghost use Rattle.fill_rules.specs.Ranking.{IsTask, IsFiled};
ghost use Rattle.fill_rules.specs.Needs.{zone_need};
ghost use Rattle.fills.specs.Fills.{task_of};
ghost use Rattle.knockouts.specs.Reaching.{ReachesTask};
ghost use Rattle.knockouts.specs.Inner.Above.{IsAboveForeign};

use crate::lengths::{is_foreign, zone_need};
use crate::rank::zone_of;
use board_language::Zone;
use board_model::Board;
use fills::Task;
use octagon::Oct;

/// Whether the upper task may change the lower one: it ranks above it, on its layer, their zones are foreign, and the frames
/// of the two outlines hold points that are near at the need.
#[tactic(auto, using(crate::proofs::Near::reaches))]
pub fn reach(board: &Board, upper: Task, lower: Task) -> bool
    requires upper { IsTask board.now.board (task_of upper) }
    requires lower { IsTask board.now.board (task_of lower) }
    ensures { IsTrue result ↔ ReachesTask board.now.board (task_of upper) (task_of lower) }
{
    let zone = zone_of(board, upper);
    let other = zone_of(board, lower);
    is_above_foreign(zone, upper, other, lower) && are_frames_near(board, zone, other)
}

// Whether the upper task ranks above the lower one, on its layer, and their zones are foreign.
fn is_above_foreign(zone: &Zone, upper: Task, other: &Zone, lower: Task) -> bool
    ensures { IsTrue result ↔ IsAboveForeign zone.now (task_of upper) other.now (task_of lower) }
{
    upper.layer == lower.layer
        && is_foreign(zone.net, other.net)
        && (zone.priority > other.priority
            || (zone.priority == other.priority && is_filed(upper, lower)))
}

// Whether the one task stands before the other in the file.
fn is_filed(task: Task, other: Task) -> bool
    ensures { IsTrue result ↔ IsFiled (task_of task) (task_of other) }
{
    task.zone < other.zone || (task.zone == other.zone && task.layer < other.layer)
}

// Whether the frames of the outlines hold points that are near at the need between the zones.
fn are_frames_near(board: &Board, upper: &Zone, lower: &Zone) -> bool
    ensures { IsTrue result ↔ AreNear (zone_need board.now.board (settings_of upper.now) (settings_of lower.now)) (around lower.now.outline) (around upper.now.outline) }
{
    let need = zone_need(board, upper, lower);
    !frame(lower).apart(&frame(upper), need)
}

// The frame of the zone's outline. That an outline has corners is what it tells when they are read.
fn frame(zone: &Zone) -> Oct
    ensures value { result ≡ around zone.now.outline }
    ensures oct { IsOct result }
{
    let _ = zone.outline.vertices();
    zone.outline.frame()
}
