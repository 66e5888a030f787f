// What is written of one zone.
ghost use Rattle.std.specs.Prelude.{◌≡◌, ◌<◌, ◌≤◌, ◌++◌, List, length, map, get_or, cond, [], IfOk};
ghost use Rattle.std.specs.List.{All, flat_map};
ghost use Rattle.rings.specs.Rings.{IsRingInRange, not_traced};
ghost use Rattle.board_language.specs.declared.board.Zone.{Zone};
ghost use Rattle.board_language.specs.Copper.{has_layer};
ghost use Rattle.fill_rules.specs.Tasks.{layers_below, ranked};
ghost use Rattle.fill_rules.specs.Nodes.{rank_in};
ghost use Rattle.fills.specs.Fills.{task_of};
ghost use Rattle.output_rules.specs.Output.{rings_text};
ghost use Rattle.outlines.specs.Drawn.{AreRingsInRange};
ghost use Rattle.fill_text.specs.Zone.{layer_text};

use board_model::Board;
use fills::Task;
use grid_num::Memory;
use knockouts::has_layer;
use output_rules::rings_text;
use rings::{Ring, Traced};
use std::alloc::Global;

/// A board that is written: its tasks in rank order, and the outlines of their fills.
#[derive(Clone, Copy)]
pub struct WrittenBoard<'a> {
    pub board: &'a Board,
    pub tasks: &'a [Task],
    pub traced: &'a [Traced],
}

// The task's place among the tasks; their number where it is none of them.
fn rank_of(tasks: &[Task], task: Task) -> usize
    ensures { result ≡ rank_in (task_of task) (map task_of tasks.now) }
{
    'each: for i in 0..tasks.len() {
        if tasks[i].zone == task.zone && tasks[i].layer == task.layer {
            return i;
        }
    }
    tasks.len()
}

// The rings at the place; none past the last.
fn rings_at(traced: &[Traced], rank: usize) -> &[Ring]
    requires { AreRingsInRange traced.now }
    ensures value { result.now ≡ (get_or traced.now rank not_traced).rings }
    ensures range { All IsRingInRange result.now }
{
    match traced.get(rank) {
        Some(outlines) => rings_of(outlines),
        None => &[],
    }
}

fn rings_of(outlines: &Traced) -> &[Ring]
    ensures { result.now ≡ outlines.now.rings }
{
    outlines.rings.as_slice()
}

// The rings of the zone's fill on one layer.
fn text_on(alloc: Global, it: &WrittenBoard<'_>, zone: u32, layer: u8) -> Result<Vec<u8>, Memory>
    requires order { map task_of it.now.tasks.now ≡ ranked it.now.board.now.board }
    requires layer { layer < length it.now.board.now.board.layers }
    requires range { AreRingsInRange it.now.traced.now }
    ensures { IfOk result (λ v. v.items ≡ layer_text it.now.board.now.board it.now.traced.now zone layer) }
{
    let name = it.board.layers()[usize::from(layer)].bytes();
    let rank = rank_of(it.tasks, Task { zone, layer });
    rings_text(alloc, name, rings_at(it.traced, rank))
}

// The text with the rings on one layer behind it, where the zone is on the layer.
fn with_layer(
    alloc: Global,
    text: Vec<u8>,
    it: &WrittenBoard<'_>,
    zone: u32,
    layer: u8,
    wanted: bool,
) -> Result<Vec<u8>, Memory>
    requires order { map task_of it.now.tasks.now ≡ ranked it.now.board.now.board }
    requires layer { layer < length it.now.board.now.board.layers }
    requires range { AreRingsInRange it.now.traced.now }
    ensures { IfOk result (λ v. v.items ≡ text.items ++ cond wanted (layer_text it.now.board.now.board it.now.traced.now zone layer) []) }
{
    let mut text = text;
    if wanted {
        let mut more = text_on(alloc, it, zone, layer)?;
        text.append(&mut more)?;
    }
    Ok(text)
}

/// The rings of all fills of a zone, in the order of the layers.
pub fn zone_text(alloc: Global, it: &WrittenBoard<'_>, zone: u32) -> Result<Vec<u8>, Memory>
    requires order { map task_of it.now.tasks.now ≡ ranked it.now.board.now.board }
    requires zone { zone < length it.now.board.now.board.zones }
    requires range { AreRingsInRange it.now.traced.now }
    ensures { IfOk result (λ v. (z : Zone) → v.items ≡ rings_text it.now.board.now.board it.now.traced.now zone (get_or it.now.board.now.board.zones zone z)) }
{
    it.board.sound();
    let layers = it.board.zones()[zone as usize].layers;
    let count = it.board.layers().len() as u8;
    let mut text = Vec::new(alloc);
    'each: for layer in 0..count {
        text = with_layer(alloc, text, it, zone, layer, has_layer(layers, layer))?;
    }
    Ok(text)
}
