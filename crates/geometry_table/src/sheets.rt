// The strips, edges, loops and rings of a sheet, in lines.
use grid_num::Point;
use sheet_trace::{Ring, boundary, by_start, polygons, trace};
use sheet_union::Sheet;
use std::alloc::{AllocError, Global};

// The head of a list.
fn head(alloc: Global, name: &str, count: usize) -> Result<String, AllocError> {
    format!(in alloc; "{name} {count}\n")
}

// Adds corners, and ends the line.
fn add_corners(alloc: Global, text: &mut String, corners: &[Point]) -> Result<(), AllocError> {
    for corner in corners {
        let one = format!(in alloc; " {},{}", corner.x, corner.y)?;
        text.push_str(one.as_str())?;
    }
    text.push_str("\n")
}

/// The strips.
pub fn strips(alloc: Global, sheet: &Sheet) -> Result<Option<String>, AllocError> {
    let strips = sheet.strips();
    let mut text = head(alloc, "strips", strips.len())?;
    for s in strips {
        let one = format!(in alloc;
            "  {} {} {} {} {} {}\n",
            s.top, s.bottom, s.left, s.left_end, s.right, s.right_end
        )?;
        text.push_str(one.as_str())?;
    }
    Ok(Some(text))
}

/// Twice the area, by both calls that answer it.
pub fn area2(alloc: Global, sheet: &Sheet) -> Result<Option<String>, AllocError> {
    let area = sheet.area2();
    let Ok(traced) = trace(alloc, sheet) else {
        return Ok(None);
    };
    if traced.area2 != area {
        return Ok(None);
    }
    Ok(Some(format!(in alloc; "area2 {area}\n")?))
}

/// The boundary edges, by their starts.
pub fn edges(alloc: Global, sheet: &Sheet) -> Result<Option<String>, AllocError> {
    let Ok(edges) = boundary(alloc, sheet) else {
        return Ok(None);
    };
    let Ok(edges) = by_start(edges) else {
        return Ok(None);
    };
    let mut text = head(alloc, "edges", edges.len())?;
    for e in &edges {
        let one = format!(in alloc;
            "  {} {} {} {}\n",
            e.start.x, e.start.y, e.finish.x, e.finish.y
        )?;
        text.push_str(one.as_str())?;
    }
    Ok(Some(text))
}

/// The loops.
pub fn loops(alloc: Global, sheet: &Sheet) -> Result<Option<String>, AllocError> {
    let Ok(loops) = sheet_trace::loops(alloc, sheet) else {
        return Ok(None);
    };
    let mut text = head(alloc, "loops", loops.len())?;
    for one in &loops {
        text.push_str(if one.hole { "  hole" } else { "  outer" })?;
        add_corners(alloc, &mut text, &one.corners)?;
    }
    Ok(Some(text))
}

fn of_rings(alloc: Global, rings: &[Ring]) -> Result<String, AllocError> {
    let mut text = head(alloc, "rings", rings.len())?;
    for ring in rings {
        text.push_str(" ")?;
        add_corners(alloc, &mut text, &ring.corners)?;
    }
    Ok(text)
}

/// The rings, by both calls that answer them.
pub fn rings(alloc: Global, sheet: &Sheet) -> Result<Option<String>, AllocError> {
    let Ok(rings) = polygons(alloc, sheet) else {
        return Ok(None);
    };
    let Ok(traced) = trace(alloc, sheet) else {
        return Ok(None);
    };
    let text = of_rings(alloc, rings.as_slice())?;
    let other = of_rings(alloc, &traced.rings)?;
    if text.as_str() == other.as_str() {
        Ok(Some(text))
    } else {
        Ok(None)
    }
}
