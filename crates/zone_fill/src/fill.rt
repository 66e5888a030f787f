// The fill of a task.
ghost use Rattle.std.specs.Prelude.{◌≡◌, ◌+◌, ◌<◌, length, map, IfOk};
ghost use Rattle.std.specs.Arc.{arc_value};
ghost use Rattle.plane.specs.Plane.{IsOct};
ghost use Rattle.grid_sets.specs.Points.{AreApart};
ghost use Rattle.hulls.specs.Cells.{around};
ghost use Rattle.outline_slab.specs.Cuts.{IsWithinHalfMetre};
ghost use Rattle.fills.specs.Fills.{task_of};
ghost use Rattle.fills.specs.Above.{AreFillsAboveTask};
ghost use Rattle.zone_fill.specs.Task.{IsFillOfTask};
ghost use Rattle.zone_fill.specs.Inner.Ground.{IsGround};

use crate::allowed::allowed_centres;
use crate::live::{live_spokes, met_octs};
use crate::walls::walls_of;
use board_language::Zone;
use board_model::Board;
use fills::{Fill, Task};
use grid_num::Memory;
use kept_copper::{all_grown, cell_octs, fill_of_cells, kept_cells, stays};
use knockouts::{Need, anchors, brush_radius, needs, spokes, zone_of};
use octagon::Oct;
use std::alloc::Global;
use std::sync::Arc;
use std::sync::ledger::Ledger;
use step_count::Steps;

/// The fill of a task, over the fills of the tasks that reach it, in rank order. It takes one step.
///
/// # Errors
///
/// Want of memory.
pub fn fill_task<L: Ledger>(
    alloc: Global,
    board: &Board,
    task: Task,
    above: &[Arc<Fill>],
    steps: &mut Steps<L>,
) -> Result<Fill, Memory>
    requires { AreFillsAboveTask board.now.board (task_of task) (map arc_value above.now) }
    ensures fill { IfOk result (λ f. IsFillOfTask board.now.board (task_of task) f) }
    ensures steps { steps.new ≡ steps.old + 1 }
{
    steps.tick();
    made(alloc, board, task, above)
}

// Where the brush may stand, as cells and what it covers there, and the spokes that the fill may have.
#[derive(Drop)]
struct Ground {
    radius: u32,
    cells: Vec<Oct>,
    blots: Vec<Oct>,
    live: Vec<Oct>,
}

// The fill, by what stays of the ground.
fn made(alloc: Global, board: &Board, task: Task, above: &[Arc<Fill>]) -> Result<Fill, Memory>
    requires { AreFillsAboveTask board.now.board (task_of task) (map arc_value above.now) }
    ensures { IfOk result (λ f. IsFillOfTask board.now.board (task_of task) f) }
{
    board.sound();
    let ground = ground_of(alloc, board, task, above)?;
    let anchors = anchors(alloc, board, task)?;
    let flags = stays(
        alloc,
        board.edges(),
        &anchors,
        &ground.live,
        zone_of(board, task).islands,
        &ground.cells,
        &ground.blots,
    )?;
    let kept = kept_cells(alloc, &ground.cells, &flags)?;
    let blots = all_grown(alloc, &kept, ground.radius)?;
    let counted = met_octs(alloc, &ground.live, &blots)?;
    let fill = fill_of_cells(alloc, task, &kept, counted, ground.radius)?;
    Ok(fill)
}

// The ground of the task.
fn ground_of(
    alloc: Global,
    board: &Board,
    task: Task,
    above: &[Arc<Fill>],
) -> Result<Ground, Memory>
    requires { AreFillsAboveTask board.now.board (task_of task) (map arc_value above.now) }
    ensures ground { IfOk result (λ g. IsGround board.now.board (task_of task) g.radius g.cells.items g.blots.items g.live.items) }
    ensures apart { IfOk result (λ g. AreApart g.cells.items) }
{
    board.sound();
    knockouts::laws::gaps_law();
    let zone = zone_of(board, task);
    let needs = needs(alloc, board, task, above)?;
    let spokes = spokes(alloc, board, task)?;
    let bars = &needs[..needs.len() - spokes.len() / 4];
    // These lie within half a metre of 0, and so does the frame round them.
    let _ = zone.outline.vertices();
    let wide = zone.outline.wide_frame();
    let walls = walls_of(alloc, &zone.outline, task.layer, board.areas(), &wide)?;
    let frame = frame_of(zone);
    let radius = brush_radius(zone);
    let rows = allowed_centres(alloc, &frame, &walls, &needs, radius)?;
    let cells = cell_octs(alloc, &rows)?;
    let blots = all_grown(alloc, &cells, radius)?;
    let live = live_spokes(alloc, &spokes, &frame, &walls, bars, &blots)?;
    Ok(Ground {
        radius,
        cells,
        blots,
        live,
    })
}

// The frame of the zone's outline. That an outline has corners is what it tells when they are read.
fn frame_of(zone: &Zone) -> Oct
    ensures value { result ≡ around zone.now.outline }
    ensures oct { IsOct result }
    ensures near { IsWithinHalfMetre result }
    ensures corners { 0 < length zone.now.outline }
{
    let _ = zone.outline.vertices();
    zone.outline.frame()
}
