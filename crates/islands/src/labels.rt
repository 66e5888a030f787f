// The parts of a list of octagons, by its stacks: two octagons hang together where their stacks do, and of these there are fewer.
ghost use Rattle.std.specs.Prelude.{length, IfOk};
ghost use Rattle.spreading.specs.Labels.{AreLabels};
ghost use Rattle.islands.specs.Parts.{IsMeetingAt, AreParts};

use crate::firsts::first_places;
use bins::Bins;
use grid_num::Memory;
use octagon::Oct;
use spreading::Links;
use stacks::stacked;
use std::alloc::Global;

// Octagons, which are linked where they meet, and their bins.
#[derive(Drop)]
struct Meetings {
    octs: Vec<Oct>,
    bins: Bins,
}

impl Links for Meetings {
    ghost use Rattle.std.specs.Prelude.{◌≡◌, length};
    ghost use Rattle.islands.specs.Parts.{IsMeetingAt};

    ghost count_of = { λ s. length s.octs.items };

    ghost are_linked = { λ s. IsMeetingAt s.octs.items };

    ghost is_ready = { λ s. s.bins ≡ s.octs.items };

    fn count(&self) -> usize {
        self.octs.len()
    }

    fn linked(&self, k: u32, into: &mut Vec<u32>) -> Result<(), Memory> {
        let oct = &self.octs[k as usize];
        self.bins.meeting(oct, into)?;
        Ok(())
    }
}

/// For each octagon the place of the first octagon of its part: of all that hang together with it, a common point being
/// enough.
///
/// # Errors
///
/// Want of memory, which 2^32 octagons or more are taken for.
pub fn parts(alloc: Global, octs: &[Oct]) -> Result<Vec<u32>, Memory>
    ensures { IfOk result (λ labels. AreParts octs.now labels.items) }
{
    let stacking = stacked(alloc, octs)?;
    let classes = classes_of(alloc, stacking.stacks)?;
    let labels = first_places(alloc, &stacking.places, &classes)?;
    Ok(labels)
}

// For each octagon the least place of its class: of all that links reach from it.
fn classes_of(alloc: Global, octs: Vec<Oct>) -> Result<Vec<u32>, Memory>
    ensures { IfOk result (λ labels. AreLabels (length octs.items) (IsMeetingAt octs.items) labels.items) }
{
    let bins = Bins::of(alloc, &octs)?;
    let links = Meetings { octs, bins };
    spreading::labels(alloc, &links)
}
