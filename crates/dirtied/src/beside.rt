// Whether copper is near the frame of a zone's outline, whatever the nets.
ghost use Rattle.std.specs.Prelude.{◌≡◌, ◌↔◌, ◌≤◌, ◌^◌, IsTrue};
ghost use Rattle.plane.specs.Plane.{AreNear, IsOct};
ghost use Rattle.hulls.specs.Cells.{around};
ghost use Rattle.fill_rules.specs.Tasks.{settings_of};
ghost use Rattle.fill_rules.specs.Needs.{item_need};
ghost use Rattle.fill_rules.specs.Ranking.{IsTask};
ghost use Rattle.fills.specs.Fills.{task_of};
ghost use Rattle.dirtied.specs.Inner.Beside.{IsSomeNear, IsBesideTask};

use board_language::Zone;
use board_model::Board;
use fills::Task;
use knockouts::zone_of;
use octagon::Oct;

/// Whether one of the hulls is near, at the need of the task's zone and whatever the nets, to the frame of its outline.
pub fn is_beside(board: &Board, task: Task, hulls: &[Oct]) -> bool
    requires { IsTask board.now.board (task_of task) }
    ensures { IsTrue result ↔ IsBesideTask board.now.board (task_of task) hulls.now }
{
    let zone = zone_of(board, task);
    let frame = frame(zone);
    let need = need(board, zone);
    is_some_near(hulls, &frame, need)
}

/// Whether one of the hulls is near the frame, at the need.
fn is_some_near(hulls: &[Oct], frame: &Oct, need: u32) -> bool
    requires least { 1 ≤ need }
    requires most { need ≤ 2 ^ 31 }
    ensures { IsTrue result ↔ IsSomeNear need frame.now hulls.now }
{
    hulls.iter().any(|hull| is_near(frame, hull, need))
}

/// Whether the hull is near the frame, at the need. What octagons are they tell when they are read.
fn is_near(frame: &Oct, hull: &Oct, need: u32) -> bool
    requires least { 1 ≤ need }
    requires most { need ≤ 2 ^ 31 }
    ensures { IsTrue result ↔ AreNear need frame.now hull.now }
{
    let _ = frame.x0();
    let _ = hull.x0();
    !frame.apart(hull, need)
}

/// How far copper of the zone stays away from a track or via of another net, in units.
fn need(board: &Board, zone: &Zone) -> u32
    ensures value { result ≡ item_need board.now.board (settings_of zone.now) 0 }
    ensures least { 1 ≤ result }
    ensures most { result ≤ 2 ^ 31 }
{
    let rules = board.rules();
    rules.sound();
    zone.clearance.max(rules.floor).div_ceil(2)
}

/// The frame of the zone's outline. That an outline has corners is what it tells when they are read.
fn frame(zone: &Zone) -> Oct
    ensures value { result ≡ around zone.now.outline }
    ensures oct { IsOct result }
{
    let _ = zone.outline.vertices();
    zone.outline.frame()
}
