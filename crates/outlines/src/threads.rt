// The outlines of fills, by several threads.
ghost use Rattle.std.specs.Prelude.{◌≡◌, IfOk, map};
ghost use Rattle.std.specs.List.{All};
ghost use Rattle.std.specs.Arc.{arc_value};
ghost use Rattle.output_rules.specs.Traced.{AreTracedOf};
ghost use Rattle.outlines.specs.Drawn.{ArePiecesDrawable, AreCovered, AreRingsInRange};
ghost use Rattle.outlines.specs.Inner.Each.{IsOutlined};

use crate::of_fill;
use fills::Fill;
use grid_num::Memory;
use rayon::prelude::*;
use rings::Traced;
use std::alloc::Global;
use std::sync::Arc;
use std::thread::Threads;

/// What `outlines_single` gives, by as many threads as there are processors.
///
/// # Errors
///
/// Want of memory.
pub fn outlines<R: Threads + Sync>(
    rt: &R,
    alloc: Global,
    fills: &[Arc<Fill>],
) -> Result<Vec<Traced>, Memory>
    requires { All (λ f. ArePiecesDrawable f.pieces) (map arc_value fills.now) }
    ensures outlines { IfOk result (λ t. AreTracedOf (map arc_value fills.now) t.items) }
    ensures cover { IfOk result (λ t. AreCovered (map arc_value fills.now) t.items) }
    ensures range { IfOk result (λ t. AreRingsInRange t.items) }
{
    fills
        .par_iter()
        .with_min_len(1)
        .map(
            |fill: &Arc<Fill>| -> Result<Traced, Memory>
                requires { ArePiecesDrawable (arc_value fill.now).pieces }
                ensures { IfOk result (λ t. IsOutlined (arc_value fill.now).pieces t) }
            { of_fill(alloc, fill) },
        )
        .collect::<Result<Vec<_>, Memory>>(rt, alloc)?
}
