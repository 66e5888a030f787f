// The lines of tracks, vias and pads.
use crate::add::{add, add_point, add_set};
use board_language::{Pad, Track, Via};
use copper_shape::Shape;
use cores::{AreaBounds, Kind, Line};
use grid_num::Memory;
use std::alloc::Global;

/// Adds the line of a track.
pub fn add_track(alloc: Global, out: &mut Vec<u8>, track: &Track) -> Result<(), Memory> {
    let Track {
        from,
        to,
        width,
        layer,
        net,
        span,
        line,
    } = *track;
    add(
        out,
        format!(in alloc; "  track line {line} from")?.as_bytes(),
    )?;
    add_point(alloc, out, from)?;
    add(out, b" to")?;
    add_point(alloc, out, to)?;
    let rest = format!(in alloc;
        " width {width} layer {layer} net {net} span {} {}\n",
        span.from, span.to
    )?;
    add(out, rest.as_bytes())
}

/// Adds the line of a via.
pub fn add_via(alloc: Global, out: &mut Vec<u8>, via: &Via) -> Result<(), Memory> {
    let Via {
        at,
        size,
        layers,
        net,
        span,
        line,
    } = *via;
    add(out, format!(in alloc; "  via line {line} at")?.as_bytes())?;
    add_point(alloc, out, at)?;
    add(out, format!(in alloc; " size {size}")?.as_bytes())?;
    add_set(alloc, out, layers)?;
    let rest = format!(in alloc; " net {net} span {} {}\n", span.from, span.to)?;
    add(out, rest.as_bytes())
}

/// Adds the bounds of x, y, x + y and x - y.
fn add_area(alloc: Global, out: &mut Vec<u8>, area: &AreaBounds) -> Result<(), Memory> {
    let AreaBounds {
        x0,
        x1,
        y0,
        y1,
        s0,
        s1,
        d0,
        d1,
    } = *area;
    let text = format!(in alloc; " x {x0} {x1} y {y0} {y1} s {s0} {s1} d {d0} {d1}")?;
    add(out, text.as_bytes())
}

/// Adds the ends of a core that is a line.
fn add_core_line(alloc: Global, out: &mut Vec<u8>, line: &Line) -> Result<(), Memory> {
    add(out, b" from")?;
    add_point(alloc, out, line.from)?;
    add(out, b" to")?;
    add_point(alloc, out, line.to)
}

/// Adds a core and its radius.
fn add_shape(alloc: Global, out: &mut Vec<u8>, shape: &Shape) -> Result<(), Memory> {
    add(out, b" core")?;
    match shape.core().kind() {
        Kind::Area(area) => add_area(alloc, out, &area)?,
        Kind::Line(line) => add_core_line(alloc, out, &line)?,
    }
    let radius = shape.radius();
    add(out, format!(in alloc; " radius {radius}")?.as_bytes())
}

/// Adds what a pad says for itself, or its footprint for it, to zones of its net.
fn add_joins(alloc: Global, out: &mut Vec<u8>, pad: &Pad) -> Result<(), Memory> {
    let text = format!(in alloc;
        " clearance {} join {:?} gap {:?} bridge {:?}\n",
        pad.clearance, pad.join, pad.gap, pad.bridge
    )?;
    add(out, text.as_bytes())
}

/// Adds the line of a pad.
pub fn add_pad(alloc: Global, out: &mut Vec<u8>, pad: &Pad) -> Result<(), Memory> {
    let text = format!(in alloc; "  pad line {} {:?} at", pad.line, pad.kind)?;
    add(out, text.as_bytes())?;
    add_point(alloc, out, pad.at)?;
    add_shape(alloc, out, &pad.shape)?;
    add_set(alloc, out, pad.layers)?;
    add(out, format!(in alloc; " net {}", pad.net)?.as_bytes())?;
    add_joins(alloc, out, pad)
}
