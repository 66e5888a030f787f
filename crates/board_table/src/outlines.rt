// The lines of zones, rule areas and edges.
use crate::add::{add, add_point, add_set};
use board_language::{Area, Edge, IslandMode, Zone, ZoneSpans};
use grid_num::{Memory, Point};
use sexpr_text::Span;
use std::alloc::Global;

/// Adds corners, in units of 2 nm.
fn add_corners(alloc: Global, out: &mut Vec<u8>, corners: &[Point]) -> Result<(), Memory> {
    add(out, b" corners")?;
    'corners: for corner in corners {
        add_point(alloc, out, *corner)?;
    }
    Ok(())
}

/// Adds where a list stands, or that there is none.
fn add_span(
    alloc: Global,
    out: &mut Vec<u8>,
    name: &str,
    span: Option<Span>,
) -> Result<(), Memory> {
    let text = match span {
        Some(span) => format!(in alloc; " {name} {} {}", span.from, span.to)?,
        None => format!(in alloc; " {name} none")?,
    };
    add(out, text.as_bytes())
}

/// Adds where the lists of a zone stand, and the end of its line.
fn add_spans(alloc: Global, out: &mut Vec<u8>, spans: &ZoneSpans) -> Result<(), Memory> {
    add_span(alloc, out, "priority", spans.priority)?;
    add_span(alloc, out, "connect", spans.connect)?;
    add_span(alloc, out, "clearance", spans.clearance)?;
    add(out, format!(in alloc; " tail {}", spans.tail)?.as_bytes())?;
    'fills: for span in spans.fills.spans() {
        add_span(alloc, out, "fill", Some(*span))?;
    }
    add(out, b"\n")
}

/// Adds the settings of a zone.
fn add_settings(alloc: Global, out: &mut Vec<u8>, zone: &Zone) -> Result<(), Memory> {
    let text = format!(in alloc;
        " net {} priority {} join {:?} clearance {} thickness {}",
        zone.net, zone.priority, zone.join, zone.clearance, zone.thickness
    )?;
    add(out, text.as_bytes())?;
    let text = format!(in alloc; " gap {} bridge {}", zone.gap, zone.bridge)?;
    add(out, text.as_bytes())?;
    match zone.islands {
        IslandMode::Remove => add(out, b" islands removed"),
        IslandMode::Keep => add(out, b" islands kept"),
        IslandMode::Below(area) => add(
            out,
            format!(in alloc; " islands below {area} removed")?.as_bytes(),
        ),
    }
}

/// Adds the line of a zone.
pub fn add_zone(alloc: Global, out: &mut Vec<u8>, zone: &Zone) -> Result<(), Memory> {
    add(
        out,
        format!(in alloc; "  zone line {}", zone.line)?.as_bytes(),
    )?;
    add_set(alloc, out, zone.layers)?;
    add_settings(alloc, out, zone)?;
    add_corners(alloc, out, zone.outline.vertices())?;
    add_span(alloc, out, "span", Some(zone.span))?;
    add_spans(alloc, out, &zone.spans)
}

/// Adds the line of a rule area.
pub fn add_area(alloc: Global, out: &mut Vec<u8>, area: &Area) -> Result<(), Memory> {
    add(out, b"  area")?;
    add_set(alloc, out, area.layers)?;
    add_corners(alloc, out, area.outline.vertices())?;
    add(out, b"\n")
}

/// Adds the line of a piece of the board's edge: a segment, or the chord of an arc.
pub fn add_edge(alloc: Global, out: &mut Vec<u8>, edge: &Edge) -> Result<(), Memory> {
    add(
        out,
        if edge.bow {
            b"  arc from"
        } else {
            b"  edge from"
        },
    )?;
    add_point(alloc, out, edge.from)?;
    add(out, b" to")?;
    add_point(alloc, out, edge.to)?;
    add(out, b"\n")
}
