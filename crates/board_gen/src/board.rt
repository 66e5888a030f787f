// The whole board.
ghost use Rattle.std.specs.Prelude.{◌≡◌, ◌≤◌, ◌++◌, OnOk, IfOk};
ghost use Rattle.board_gen.specs.Generated.{corners_text, settings_text, zone_text, front_text, back_text, opening_lines, rows_text, generated};

use crate::add::{add, add_length, add_point};
use crate::item::{Walk, add_row};
use grid_num::Memory;
use std::alloc::Global;

/// Adds the corners of a square behind its first, and the end of its zone.
fn add_corners(out: &mut Vec<u8>, size: u32) -> Result<(), Memory>
    requires { size ≤ 200 }
    ensures { OnOk result (out.new.items ≡ out.old.items ++ corners_text size) }
{
    let side = 2_000_000 * size as u64;
    add_length(out, side)?;
    add(out, b" 0) (xy ")?;
    add_point(out, side, side)?;
    add(out, b") (xy 0 ")?;
    add_length(out, side)?;
    add(out, b")))\n  )\n")?;
    Ok(())
}

/// Adds what both zones have in common.
fn add_settings(out: &mut Vec<u8>) -> Result<(), Memory>
    ensures { OnOk result (out.new.items ≡ out.old.items ++ settings_text) }
{
    add(
        out,
        b"    (connect_pads (clearance 0.2))\n    (min_thickness 0.25)\n    (fill yes (thermal_gap 0.5) (thermal_bridge_width 0.5) (island_removal_mode 1))\n    (polygon (pts (xy 0 0) (xy ",
    )
}

/// Adds a zone, of which this is the first line.
fn add_zone(out: &mut Vec<u8>, line: &[u8], size: u32) -> Result<(), Memory>
    requires { size ≤ 200 }
    ensures { OnOk result (out.new.items ≡ out.old.items ++ zone_text line.now size) }
{
    add(out, line)?;
    add_settings(out)?;
    add_corners(out, size)?;
    Ok(())
}

/// Adds the vias and tracks of all cells.
fn add_rows(out: &mut Vec<u8>, seed: u64, size: u32) -> Result<(), Memory>
    requires { size ≤ 200 }
    ensures { OnOk result (out.new.items ≡ out.old.items ++ rows_text size 0 seed 1 size) }
{
    let mut walk = Walk {
        state: seed,
        number: 1,
    };
    'rows: for row in 0..size as u64 {
        walk = add_row(out, size as u64, row, walk)?;
    }
    Ok(())
}

/// Adds the lines before the items.
fn add_head(out: &mut Vec<u8>) -> Result<(), Memory>
    ensures { OnOk result (out.new.items ≡ out.old.items ++ opening_lines) }
{
    add(
        out,
        b"(kicad_pcb (version 20221018) (generator zonefill)\n  (layers (0 \"F.Cu\" signal) (31 \"B.Cu\" signal))\n  (net 0 \"\")\n  (net 1 \"GND\")\n  (net 2 \"VCC\")\n",
    )
}

/// Adds both zones.
fn add_zones(out: &mut Vec<u8>, size: u32) -> Result<(), Memory>
    requires { size ≤ 200 }
    ensures { OnOk result (out.new.items ≡ out.old.items ++ (zone_text front_text size ++ zone_text back_text size)) }
{
    add_zone(
        out,
        b"  (zone (net 1) (net_name \"GND\") (layer \"F.Cu\") (tstamp zf) (hatch edge 0.5)\n",
        size,
    )?;
    add_zone(
        out,
        b"  (zone (net 2) (net_name \"VCC\") (layer \"B.Cu\") (tstamp zb) (hatch edge 0.5)\n",
        size,
    )?;
    Ok(())
}

/// The board of this seed, of `size` by `size` cells. Refuses for want of memory alone.
pub fn generate(alloc: Global, seed: u64, size: u32) -> Result<Vec<u8>, Memory>
    requires least { 1 ≤ size }
    requires most { size ≤ 200 }
    ensures { IfOk result (λ v. v.items ≡ generated seed size) }
{
    let mut out = Vec::new(alloc);
    add_head(&mut out)?;
    add_rows(&mut out, seed, size)?;
    add_zones(&mut out, size)?;
    add(&mut out, b")\n")?;
    Ok(out)
}
