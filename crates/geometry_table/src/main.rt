//! The program `geometry_table`: it reads a table of geometry, line by line, and prints what the calls answer.
//! Nothing stands above it: what it prints is compared with `stdout`, which was worked out by hand or by scripts of bench/.
//! A line begins with a word that says what is asked. Octagons are in units of 2 nm, corners in nanometres, cores in halves.
#![tactic(auto)]

mod bin_rows;
mod cores_pair;
mod edge_rows;
mod outlines;
mod part_rows;
mod piece;
mod sheets;
mod words;

use crate::part_rows::Disc;
use copper_shape::Edge;
use geometry_tests::shapes::{octagon, sheet};
use grid_num::Point;
use std::alloc::{AllocError, Global};
use std::io;

/// What the lines so far have put down.
#[derive(Drop)]
struct Table {
    octagons: Vec<[i32; 8]>,
    corners: Vec<Point>,
    anchors: Vec<Disc>,
    spokes: Vec<[i32; 8]>,
    edges: Vec<Edge>,
}

impl Table {
    fn clear(&mut self, alloc: Global) -> String {
        self.octagons = Vec::new(alloc);
        self.anchors = Vec::new(alloc);
        self.spokes = Vec::new(alloc);
        self.edges = Vec::new(alloc);
        String::new(alloc)
    }
}

// What a line about the octagons answers.
fn of_octagons(alloc: Global, table: &Table, command: &str) -> Result<Option<String>, AllocError> {
    let Some(sheet) = sheet(alloc, table.octagons.as_slice())? else {
        return Ok(None);
    };
    match command {
        "strips" => sheets::strips(alloc, &sheet),
        "area2" => sheets::area2(alloc, &sheet),
        "edges" => sheets::edges(alloc, &sheet),
        "loops" => sheets::loops(alloc, &sheet),
        "rings" => sheets::rings(alloc, &sheet),
        _ => Ok(None),
    }
}

// Puts an octagon down; says so if it has no points strictly inside.
fn put_octagon(
    alloc: Global,
    table: &mut Table,
    words: &[&str],
) -> Result<Option<String>, AllocError> {
    let Some(bounds) = words::bounds(words) else {
        return Ok(None);
    };
    if octagon(bounds).is_none() {
        return Ok(Some(format!(in alloc; "no inside\n")?));
    }
    table.octagons.push(bounds)?;
    Ok(Some(String::new(alloc)))
}

// Puts the corners of an outline down.
fn put_outline(
    alloc: Global,
    table: &mut Table,
    words: &[&str],
) -> Result<Option<String>, AllocError> {
    table.corners = words::corners(alloc, words)?;
    outlines::made(alloc, table.corners.as_slice())
}

// Puts an anchor down: a disc by its centre and radius.
fn put_anchor(
    alloc: Global,
    table: &mut Table,
    words: &[&str],
) -> Result<Option<String>, AllocError> {
    let [x, y, radius] = *words else {
        return Ok(None);
    };
    let Ok(radius) = radius.parse::<u32>() else {
        return Ok(None);
    };
    table.anchors.push(Disc {
        x: words::number(x),
        y: words::number(y),
        radius,
    })?;
    Ok(Some(String::new(alloc)))
}

// Puts a spoke down.
fn put_spoke(
    alloc: Global,
    table: &mut Table,
    words: &[&str],
) -> Result<Option<String>, AllocError> {
    let Some(bounds) = words::bounds(words) else {
        return Ok(None);
    };
    table.spokes.push(bounds)?;
    Ok(Some(String::new(alloc)))
}

// Puts a part of the board's edge down.
fn put_edge(
    alloc: Global,
    table: &mut Table,
    words: &[&str],
    bow: bool,
) -> Result<Option<String>, AllocError> {
    let Some(edge) = edge_rows::edge(words, bow) else {
        return Ok(None);
    };
    table.edges.push(edge)?;
    Ok(Some(String::new(alloc)))
}

// What a line about parts or about the board's edge answers; None where it is about something else.
fn of_board(
    alloc: Global,
    table: &mut Table,
    command: &str,
    words: &[&str],
) -> Result<Option<String>, AllocError> {
    match command {
        "parts" => part_rows::labels(alloc, table.octagons.as_slice()),
        "anchor" => put_anchor(alloc, table, words),
        "spoke" => put_spoke(alloc, table, words),
        "held" => part_rows::holding(
            alloc,
            table.octagons.as_slice(),
            table.anchors.as_slice(),
            table.spokes.as_slice(),
        ),
        "edge" => put_edge(alloc, table, words, false),
        "bow" => put_edge(alloc, table, words, true),
        "within" => edge_rows::within(alloc, table.edges.as_slice(), words),
        _ => Ok(None),
    }
}

// What a line answers; None where it is none of the table's.
fn answer(alloc: Global, table: &mut Table, line: &str) -> Result<Option<String>, AllocError> {
    let words: Vec<&str> = line.split_whitespace().collect(alloc)?;
    let Some((command, rest)) = words.split_first() else {
        return Ok(None);
    };
    match *command {
        "#" => Ok(Some(format!(in alloc; "{line}\n")?)),
        "clear" => Ok(Some(table.clear(alloc))),
        "octagon" => put_octagon(alloc, table, rest),
        "cores" => cores_pair::touching(alloc, rest),
        "hull" => piece::hull(alloc, rest),
        "outline" => put_outline(alloc, table, rest),
        "place" => outlines::place(alloc, table.corners.as_slice(), rest),
        "cover" => outlines::cover(alloc, table.corners.as_slice(), rest),
        "meeting" => bin_rows::meeting(alloc, table.octagons.as_slice(), words::bounds(rest)),
        "parts" | "anchor" | "spoke" | "held" | "edge" | "bow" | "within" => {
            of_board(alloc, table, command, rest)
        }
        other => of_octagons(alloc, table, other),
    }
}

fn main(rt: HostRuntime) -> io::Result<()> {
    let alloc = rt.alloc();
    let mut table = Table {
        octagons: Vec::new(alloc),
        corners: Vec::new(alloc),
        anchors: Vec::new(alloc),
        spokes: Vec::new(alloc),
        edges: Vec::new(alloc),
    };
    for line in rt.lines(alloc) {
        let line = line?;
        match answer(alloc, &mut table, line.as_str())? {
            Some(text) => print!(rt; "{text}")?,
            None => println!(rt; "not understood: {line}")?,
        }
    }
    Ok(())
}
