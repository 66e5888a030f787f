// Rings as they are written into a zone.
ghost use Rattle.std.specs.Prelude.{◌≡◌, ◌++◌, IfOk, OnOk};
ghost use Rattle.std.specs.List.{All, flat_map};
ghost use Rattle.grid_num.specs.Length.{IsInRange};
ghost use Rattle.rings.specs.Rings.{IsRingInRange};
ghost use Rattle.output_rules.specs.Rings.{quoted, corner_text, ring_text};

use crate::add::{add, add_length};
use grid_num::{Memory, Point};
use rings::Ring;
use std::alloc::Global;

/// Adds a name that stands between quotes.
fn add_quoted(out: &mut Vec<u8>, name: &[u8]) -> Result<(), Memory>
    ensures { OnOk result (out.new.items ≡ out.old.items ++ quoted name.now) }
{
    'bytes: for byte in name {
        if *byte == b'"' || *byte == b'\\' {
            out.push(b'\\')?;
        }
        out.push(*byte)?;
    }
    Ok(())
}

fn add_corner(out: &mut Vec<u8>, corner: &Point) -> Result<(), Memory>
    requires x { IsInRange corner.now.x }
    requires y { IsInRange corner.now.y }
    ensures { OnOk result (out.new.items ≡ out.old.items ++ corner_text corner.now) }
{
    add(out, b"\n        (xy ")?;
    add_length(out, corner.x)?;
    add(out, b" ")?;
    add_length(out, corner.y)?;
    add(out, b")")?;
    Ok(())
}

fn add_corners(out: &mut Vec<u8>, corners: &[Point]) -> Result<(), Memory>
    requires { All (λ corner. IsInRange corner.x × IsInRange corner.y) corners.now }
    ensures { OnOk result (out.new.items ≡ out.old.items ++ flat_map corner_text corners.now) }
{
    'corners: for corner in corners {
        add_corner(out, corner)?;
    }
    Ok(())
}

fn add_ring(out: &mut Vec<u8>, layer: &[u8], ring: &Ring) -> Result<(), Memory>
    requires { IsRingInRange ring.now }
    ensures { OnOk result (out.new.items ≡ out.old.items ++ ring_text layer.now ring.now) }
{
    add(out, b"\n    (filled_polygon\n      (layer \"")?;
    add_quoted(out, layer)?;
    add(out, b"\")\n      (pts")?;
    add_corners(out, &ring.corners)?;
    add(out, b"\n      )\n    )")?;
    Ok(())
}

/// The text of these rings of one layer, each from a line feed on. Corners lie within 500 mm. Refuses for want of memory
/// alone.
pub fn rings_text(alloc: Global, layer: &[u8], rings: &[Ring]) -> Result<Vec<u8>, Memory>
    requires { All IsRingInRange rings.now }
    ensures { IfOk result (λ v. v.items ≡ flat_map (ring_text layer.now) rings.now) }
{
    let mut out = Vec::new(alloc);
    'rings: for ring in rings {
        add_ring(&mut out, layer, ring)?;
    }
    Ok(out)
}
