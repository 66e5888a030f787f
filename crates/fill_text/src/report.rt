// The report of a filled board.
ghost use Rattle.std.specs.Prelude.{◌≡◌, ◌+◌, ◌<◌, ◌^◌, map, IfOk};
ghost use Rattle.std.specs.Arc.{arc_value};
ghost use Rattle.fills.specs.Fills.{AreBoardFills};
ghost use Rattle.output_rules.specs.Report as rules;
ghost use Rattle.output_rules.specs.Shown.{net_shown};
ghost use Rattle.fill_text.specs.Said.{IsReportOf};

use crate::lines_of_nets::net_lines;
use crate::lines_of_nodes::node_lines;
use crate::lines_of_tasks::task_lines;
use board_model::Board;
use clusters::clusters;
use fills::Fill;
use grid_num::Memory;
use output_rules::NetLines;
use rings::Traced;
use std::alloc::Global;
use std::sync::Arc;

/// What is said of a filled board.
#[derive(Debug, Drop)]
pub struct Report {
    pub bytes: Vec<u8>,
    /// How many lines the ratsnests of all nets have together.
    pub unjoined: u64,
}

/// The report of a board with its fills and their outlines, both in rank order: a line for each zone and layer, for each node, for
/// each net with its clusters and the lines of its ratsnest, and last how many such lines there are.
///
/// # Errors
///
/// Want of memory, which 2^32 nodes, or ends of ratsnest lines of a net, are taken for.
pub fn report_text(
    alloc: Global,
    board: &Board,
    fills: &[Arc<Fill>],
    traced: &[Traced],
) -> Result<Report, Memory>
    requires { AreBoardFills board.now.board (map arc_value fills.now) }
    ensures { IfOk result (λ r. IsReportOf board.now.board (map arc_value fills.now) traced.now r) }
{
    let labelling = clusters(alloc, board, fills)?;
    let tasks = task_lines(alloc, board, fills, traced)?;
    let nodes = node_lines(alloc, board, fills, &labelling)?;
    let nets = net_lines(alloc, board, fills, &labelling)?;
    let unjoined = counted(nets.as_slice())?;
    let bytes = output_rules::report_text(alloc, &tasks, &nodes, &nets)?;
    Ok(Report { bytes, unjoined })
}

// How many lines of ratsnests there are; more than 64 bits hold are want of memory.
fn counted(nets: &[NetLines]) -> Result<u64, Memory>
    ensures count { IfOk result (λ n. n ≡ rules.unjoined (map net_shown nets.now)) }
    ensures most { IfOk result (λ n. n < 2 ^ 64) }
{
    let mut count = 0u64;
    'nets: for net in nets {
        count = added(count, net.lines.as_slice().len())?;
    }
    Ok(count)
}

fn added(count: u64, more: usize) -> Result<u64, Memory>
    ensures sum { IfOk result (λ n. n ≡ count + more) }
    ensures most { IfOk result (λ n. n < 2 ^ 64) }
{
    count.checked_add(more as u64).ok_or(Memory)
}
