// The report of a filled board: its lines, and their text.
ghost use Rattle.std.specs.Prelude.{◌≡◌, ◌+◌, ◌++◌, ◌<◌, ◌^◌, length, map, IfOk, OnOk};
ghost use Rattle.std.specs.List.{All, flat_map};
ghost use lib.Chars.{codes};
ghost use Rattle.grid_num.specs.Length.{IsInRange};
ghost use Rattle.output_rules.specs.Report as report;
ghost use Rattle.output_rules.specs.Report.{numbered, task_text, copper_text, node_text, nodes_text, member_text, cluster_text, point_text, line_text, net_text, unjoined, IsLineInRange};
ghost use Rattle.output_rules.specs.Shown.{net_shown, IsNetInRange};

use crate::add::{add, add_length, add_number};
use crate::cluster::Cluster;
use board_language::Name;
use grid_num::{Memory, Point};
use std::alloc::Global;

/// What is said of a zone on one of its layers.
#[derive(Debug, Drop)]
pub struct TaskLine {
    /// The zone's number, from 1, among the copper zones that are read, and its line in the text.
    pub zone: u32,
    pub line: u64,
    pub layer: Name,
    pub parts: u32,
    pub polygons: u32,
    /// Twice the area of the fill, in square nanometres.
    pub area2: u128,
}

/// A piece of copper of a net.
#[derive(Debug, Drop)]
pub enum Copper {
    /// By its line in the text.
    Pad { line: u64 },
    Track { line: u64 },
    Via { line: u64 },
    /// By its number, from 1, within a zone's fill on a layer.
    Part { zone: u32, layer: Name, part: u32 },
}

/// A node: a piece of copper, and its net.
#[derive(Debug, Drop)]
pub struct NodeLine {
    pub copper: Copper,
    pub net: u32,
}

/// A line of a ratsnest: its two ends in nanometres, and the square of its length.
#[derive(Clone, Copy, PartialEq, Eq, Debug, Drop)]
pub struct RatsnestLine {
    pub from: Point,
    pub to: Point,
    pub square: u64,
}

/// What is said of a net: its clusters, and the lines of its ratsnest in joining order.
#[derive(Debug, Drop)]
pub struct NetLines {
    pub net: u32,
    pub clusters: Vec<Cluster>,
    pub lines: Vec<RatsnestLine>,
}

/// Adds a word and a number behind it.
fn add_numbered(out: &mut Vec<u8>, word: &[u8], number: u128) -> Result<(), Memory>
    ensures { OnOk result (out.new.items ≡ out.old.items ++ numbered word.now number) }
{
    add(out, word)?;
    add_number(out, number)
}

fn add_task(out: &mut Vec<u8>, task: &TaskLine) -> Result<(), Memory>
    ensures { OnOk result (out.new.items ≡ out.old.items ++ task_text task.now) }
{
    add_numbered(out, b"zone ", task.zone as u128)?;
    add_numbered(out, b" line ", task.line as u128)?;
    add(out, b" ")?;
    add(out, task.layer.bytes())?;
    add_numbered(out, b" parts ", task.parts as u128)?;
    add_numbered(out, b" polygons ", task.polygons as u128)?;
    add_numbered(out, b" area2 ", task.area2)?;
    add(out, b"\n")?;
    Ok(())
}

fn add_tasks(out: &mut Vec<u8>, tasks: &[TaskLine]) -> Result<(), Memory>
    ensures { OnOk result (out.new.items ≡ out.old.items ++ flat_map task_text tasks.now) }
{
    'tasks: for task in tasks {
        add_task(out, task)?;
    }
    Ok(())
}

fn add_part(out: &mut Vec<u8>, zone: u32, layer: &[u8], part: u32) -> Result<(), Memory>
    ensures { OnOk result (out.new.items ≡ out.old.items
        ++ (numbered (codes " part zone ") zone ++ (codes " " ++ (layer.now ++ numbered (codes " ") part)))) }
{
    add_numbered(out, b" part zone ", zone as u128)?;
    add(out, b" ")?;
    add(out, layer)?;
    add_numbered(out, b" ", part as u128)?;
    Ok(())
}

fn add_copper(out: &mut Vec<u8>, copper: &Copper) -> Result<(), Memory>
    ensures { OnOk result (out.new.items ≡ out.old.items ++ copper_text copper.now) }
{
    match copper {
        Copper::Pad { line } => add_numbered(out, b" pad line ", *line as u128),
        Copper::Track { line } => add_numbered(out, b" track line ", *line as u128),
        Copper::Via { line } => add_numbered(out, b" via line ", *line as u128),
        Copper::Part { zone, layer, part } => add_part(out, *zone, layer.bytes(), *part),
    }
}

fn add_node(out: &mut Vec<u8>, number: usize, node: &NodeLine) -> Result<(), Memory>
    ensures { OnOk result (out.new.items ≡ out.old.items ++ node_text number node.now) }
{
    add_numbered(out, b"node ", number as u128)?;
    add_copper(out, &node.copper)?;
    add_numbered(out, b" net ", node.net as u128)?;
    add(out, b"\n")?;
    Ok(())
}

fn add_nodes(out: &mut Vec<u8>, nodes: &[NodeLine]) -> Result<(), Memory>
    ensures { OnOk result (out.new.items ≡ out.old.items ++ nodes_text 0 nodes.now) }
{
    'nodes: for number in 0..nodes.len() {
        add_node(out, number, &nodes[number])?;
    }
    Ok(())
}

fn add_members(out: &mut Vec<u8>, members: &[u32]) -> Result<(), Memory>
    ensures { OnOk result (out.new.items ≡ out.old.items ++ flat_map member_text members.now) }
{
    'members: for member in members {
        add_numbered(out, b" ", *member as u128)?;
    }
    Ok(())
}

fn add_cluster(out: &mut Vec<u8>, cluster: &Cluster) -> Result<(), Memory>
    ensures { OnOk result (out.new.items ≡ out.old.items ++ cluster_text cluster.now) }
{
    add(out, b"cluster")?;
    add_members(out, cluster.nodes())?;
    add(out, b"\n")?;
    Ok(())
}

fn add_clusters(out: &mut Vec<u8>, clusters: &[Cluster]) -> Result<(), Memory>
    ensures { OnOk result (out.new.items ≡ out.old.items ++ flat_map cluster_text clusters.now) }
{
    'clusters: for cluster in clusters {
        add_cluster(out, cluster)?;
    }
    Ok(())
}

fn add_point(out: &mut Vec<u8>, point: Point) -> Result<(), Memory>
    requires x { IsInRange point.x }
    requires y { IsInRange point.y }
    ensures { OnOk result (out.new.items ≡ out.old.items ++ point_text point) }
{
    add(out, b" ")?;
    add_length(out, point.x)?;
    add(out, b" ")?;
    add_length(out, point.y)?;
    Ok(())
}

fn add_line(out: &mut Vec<u8>, line: &RatsnestLine) -> Result<(), Memory>
    requires { IsLineInRange line.now }
    ensures { OnOk result (out.new.items ≡ out.old.items ++ line_text line.now) }
{
    add(out, b"line")?;
    add_point(out, line.from)?;
    add_point(out, line.to)?;
    add_numbered(out, b" d2 ", line.square as u128)?;
    add(out, b"\n")?;
    Ok(())
}

fn add_lines(out: &mut Vec<u8>, lines: &[RatsnestLine]) -> Result<(), Memory>
    requires { All IsLineInRange lines.now }
    ensures { OnOk result (out.new.items ≡ out.old.items ++ flat_map line_text lines.now) }
{
    'lines: for line in lines {
        add_line(out, line)?;
    }
    Ok(())
}

fn add_net(out: &mut Vec<u8>, net: &NetLines) -> Result<(), Memory>
    requires { IsNetInRange net.now }
    ensures { OnOk result (out.new.items ≡ out.old.items ++ net_text (net_shown net.now)) }
{
    add_numbered(out, b"net ", net.net as u128)?;
    add_numbered(out, b" clusters ", net.clusters.len() as u128)?;
    add(out, b"\n")?;
    add_clusters(out, net.clusters.as_slice())?;
    add_lines(out, net.lines.as_slice())?;
    Ok(())
}

fn add_nets(out: &mut Vec<u8>, nets: &[NetLines]) -> Result<(), Memory>
    requires { All IsNetInRange nets.now }
    ensures { OnOk result (out.new.items ≡ out.old.items ++ flat_map net_text (map net_shown nets.now)) }
{
    'nets: for net in nets {
        add_net(out, net)?;
    }
    Ok(())
}

/// How many lines of ratsnests there are.
pub fn unjoined(nets: &[NetLines]) -> u64
    requires { unjoined (map net_shown nets.now) < 2 ^ 64 }
    ensures { result ≡ unjoined (map net_shown nets.now) }
{
    let mut count = 0;
    'nets: for net in nets {
        count += net.lines.as_slice().len() as u64;
    }
    count
}

/// The report: the lines of the zones, of the nodes and of the nets, and the number of all lines of ratsnests. Ends of lines
/// lie within 500 mm.
///
/// # Errors
///
/// Want of memory.
pub fn report_text(
    alloc: Global,
    tasks: &[TaskLine],
    nodes: &[NodeLine],
    nets: &[NetLines],
) -> Result<Vec<u8>, Memory>
    requires range { All IsNetInRange nets.now }
    requires count { unjoined (map net_shown nets.now) < 2 ^ 64 }
    ensures { IfOk result (λ v. v.items ≡ report.report_text (record { tasks = tasks.now; nodes = nodes.now; nets = map net_shown nets.now })) }
{
    let mut out = Vec::new(alloc);
    add_tasks(&mut out, tasks)?;
    add_nodes(&mut out, nodes)?;
    add_nets(&mut out, nets)?;
    add_numbered(&mut out, b"unjoined ", unjoined(nets) as u128)?;
    add(&mut out, b"\n")?;
    Ok(out)
}

/// The line that is said first of a board that is filled again: how many tasks that was.
///
/// # Errors
///
/// Want of memory.
pub fn refilled_text(alloc: Global, tasks: u32) -> Result<Vec<u8>, Memory>
    ensures { IfOk result (λ v. v.items ≡ report.refilled_text tasks) }
{
    let mut out = Vec::new(alloc);
    add_numbered(&mut out, b"refilled ", tasks as u128)?;
    add(&mut out, b"\n")?;
    Ok(out)
}

/// What is said of a board that was made by rule: its items, and of its two tasks the polygons and twice the area together.
///
/// # Errors
///
/// Want of memory.
pub fn summary_text(
    alloc: Global,
    items: u32,
    polygons: u64,
    area2: u128,
    unjoined: u64,
) -> Result<Vec<u8>, Memory>
    ensures { IfOk result (λ v. v.items ≡ report.summary_text items polygons area2 unjoined) }
{
    let mut out = Vec::new(alloc);
    add_numbered(&mut out, b"items ", items as u128)?;
    add(&mut out, b" tasks 2")?;
    add_numbered(&mut out, b" polygons ", polygons as u128)?;
    add_numbered(&mut out, b" area2 ", area2)?;
    add_numbered(&mut out, b" unjoined ", unjoined as u128)?;
    add(&mut out, b"\n")?;
    Ok(out)
}
