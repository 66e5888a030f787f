// The cells of bands: one run through one band, as an octagon.
ghost use Rattle.std.specs.Prelude.{◌≡◌, ℕ, ◌^◌, ◌++◌, map, pos, ◌+ℤ◌, ◌≤ℤ◌, IfOk};
ghost use Rattle.std.specs.List.{All};
ghost use Rattle.plane.specs.Plane.{IsOct};
ghost use Rattle.plane.specs.Narrow.{IsNearZero};
ghost use Rattle.grid_sets.specs.Cells.{cell_of, cells_of};
ghost use Rattle.scan_runs.specs.Strips.{band_of};
ghost use Rattle.scan_runs.specs.Inner.Grouping.{IsGoodSlant, IsGoodBand, AreGoodBands};
ghost use Rattle.scan_runs.specs.Cells.{run_cells, numbered_cells};

use crate::ends::place_at;
use crate::strip::RowStrip;
use grid_num::{Memory, Point};
use grid_sets::Slant;
use octagon::Oct;
use std::alloc::Global;

/// One run through one band, as the tight octagon of its grid points, with the number of the band and that of the run in
/// the band, both from 0.
#[derive(Clone, Copy, PartialEq, Eq, Debug)]
pub struct Cell {
    pub oct: Oct,
    pub band: u32,
    pub run: u32,
}

// The cells of the bands, in order. More bands or runs than a number can count are refused like want of memory.
pub(crate) fn numbered(alloc: Global, bands: &[RowStrip]) -> Result<Vec<Cell>, Memory>
    requires bands { AreGoodBands bands.now }
    requires octs { All IsOct (cells_of (map band_of bands.now)) }
    ensures { IfOk result (λ cells. cells.items ≡ numbered_cells 0 (map band_of bands.now)) }
{
    let mut cells = Vec::new(alloc);
    'bands: for i in 0..bands.len() {
        add_cells(&mut cells, &bands[i], number(i)?)?;
    }
    Ok(cells)
}

fn number(i: usize) -> Result<u32, Memory>
    ensures { IfOk result (λ n. n ≡ i) }
{
    let Ok(n) = u32::try_from(i) else {
        return Err(Memory);
    };
    Ok(n)
}

// Adds the cells of one band.
fn add_cells(cells: &mut Vec<Cell>, strip: &RowStrip, band: u32) -> Result<(), Memory>
    requires strip { IsGoodBand strip.now }
    requires octs { All IsOct (map (cell_of strip.now.top strip.now.more) strip.now.runs.items) }
    ensures { IfOk result (λ _. cells.new.items ≡ cells.old.items ++ run_cells (band_of strip.now) band 0 strip.now.runs.items) }
{
    'runs: for i in 0..strip.runs.len() {
        let oct = octagon_of(strip.top, strip.more, strip.runs[i]);
        let run = number(i)?;
        cells.push(Cell { oct, band, run })?;
    }
    Ok(())
}

// The octagon of one run through the rows: the least one round the ends of the first row and the last.
fn octagon_of(top: i64, more: u64, run: Slant) -> Oct
    requires top { IsNearZero (2 ^ 40) top }
    requires bottom { (top +ℤ pos more) ≤ℤ pos (2 ^ 40) }
    requires run { IsGoodSlant run }
    requires oct { IsOct (cell_of top more run) }
    ensures { result ≡ cell_of top more run }
{
    let bottom = top + more as i64;
    Oct::of_points(&[
        Point {
            x: place_at(run.from, 0),
            y: top,
        },
        Point {
            x: place_at(run.to, 0),
            y: top,
        },
        Point {
            x: place_at(run.from, more),
            y: bottom,
        },
        Point {
            x: place_at(run.to, more),
            y: bottom,
        },
    ])
}
