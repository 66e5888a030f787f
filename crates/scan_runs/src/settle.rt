// Bands that begin with a strip, or with the rest of one: a single row's ends are still.
ghost use Rattle.std.specs.Prelude.{◌≡◌, ℕ, ◌^◌, ◌≤◌, pos, ◌+ℤ◌, ◌≤ℤ◌, IfOk};
ghost use Rattle.plane.specs.Narrow.{IsNearZero};
ghost use Rattle.grid_sets.specs.declared.Move.TheVariants.{Still};
ghost use Rattle.scan_runs.specs.Inner.Parts.{IsSmallSlant, AreSmall};
ghost use Rattle.scan_runs.specs.Strips.{IsSmallStrip};
ghost use Rattle.scan_runs.specs.Inner.Grouping.{AreGoodRuns, AreStilled, IsAdvancedRun, AreAdvanced, IsSettled, IsRestOf};

use crate::ends::place_at;
use crate::strip::RowStrip;
use grid_num::Memory;
use grid_sets::{End, Move, Slant};
use std::alloc::Global;

// The strip as a band.
pub(crate) fn settled(
    alloc: Global,
    top: i64,
    more: u64,
    runs: &[Slant],
) -> Result<RowStrip, Memory>
    requires top { IsNearZero (2 ^ 40) top }
    requires bottom { (top +ℤ pos more) ≤ℤ pos (2 ^ 40) }
    requires runs { AreGoodRuns runs.now }
    ensures { IfOk result (λ strip. IsSettled top more runs.now strip) }
{
    let runs = if more == 0 {
        stilled(alloc, runs)?
    } else {
        Vec::from_slice(alloc, runs)?
    };
    Ok(RowStrip { top, more, runs })
}

// The runs of one row with ends that are still.
fn stilled(alloc: Global, runs: &[Slant]) -> Result<Vec<Slant>, Memory>
    requires { AreGoodRuns runs.now }
    ensures { IfOk result (λ all. AreStilled runs.now all.items) }
{
    let mut all = Vec::new(alloc);
    'runs: for run in runs {
        all.push(Slant {
            from: still(run.from),
            to: still(run.to),
        })?;
    }
    Ok(all)
}

fn still(e: End) -> End
    ensures place { result.place ≡ e.place }
    ensures go { result.go ≡ Still }
{
    End {
        place: e.place,
        go: Move::Still,
    }
}

// The strip without its first row, as a band.
pub(crate) fn rest_of(alloc: Global, strip: &RowStrip) -> Result<RowStrip, Memory>
    requires strip { IsSmallStrip strip.now }
    requires more { 1 ≤ strip.now.more }
    ensures { IfOk result (λ rest. IsRestOf strip.now rest) }
{
    let runs = advanced(alloc, &strip.runs)?;
    settled(alloc, strip.top + 1, strip.more - 1, &runs)
}

// The runs, a row further down.
fn advanced(alloc: Global, runs: &[Slant]) -> Result<Vec<Slant>, Memory>
    requires { AreSmall runs.now }
    ensures { IfOk result (λ all. AreAdvanced runs.now all.items) }
{
    let mut all = Vec::new(alloc);
    'runs: for run in runs {
        all.push(advanced_run(*run))?;
    }
    Ok(all)
}

fn advanced_run(run: Slant) -> Slant
    requires { IsSmallSlant run }
    ensures { IsAdvancedRun run result }
{
    Slant {
        from: End {
            place: place_at(run.from, 1),
            go: run.from.go,
        },
        to: End {
            place: place_at(run.to, 1),
            go: run.to.go,
        },
    }
}
