// The links of nodes: of each node's hulls it is asked which others meet them, and only copper whose hulls meet whether it touches.
ghost use Rattle.std.specs.Prelude.{◌≡◌, ◌<◌, length, IfOk};
ghost use Rattle.std.specs.List.{All};
ghost use Rattle.spreading.specs.Labels.{AreLabels};
ghost use Rattle.islands.specs.Held.{IsAnchorInRoom};
ghost use Rattle.clusters.specs.declared.patch.Patch.{Patch};
ghost use Rattle.clusters.specs.Inner.Patches.{IsPatch, AreNodesLinkedBy};
ghost use Rattle.clusters.specs.Inner.Links.{ArePatchesInOrder, AreAdded, patch_hulls};

use crate::patch::Patch;
use bins::Bins;
use fill_rules::touch_law;
use grid_num::Memory;
use octagon::Oct;
use spreading::Links;
use std::alloc::Global;

// The nodes of a board with the patches of all, node by node, and the bins of the patches' hulls.
#[derive(Drop)]
struct NodeLinks {
    count: u32,
    patches: Vec<Patch>,
    bins: Bins,
}

impl Links for NodeLinks {
    ghost use Rattle.clusters.specs.Inner.Patches.{AreNodesLinkedBy};
    ghost use Rattle.clusters.specs.Inner.Links.{HasPatches};

    ghost count_of = { λ s. s.count };

    ghost are_linked = { λ s. AreNodesLinkedBy s.patches.items };

    ghost is_ready = { λ s. HasPatches s.count s.patches.items s.bins };

    fn count(&self) -> usize {
        self.count as usize
    }

    fn linked(&self, k: u32, into: &mut Vec<u32>) -> Result<(), Memory> {
        let first = self.patches.partition_point(|patch| patch.node < k);
        let end = self.patches.partition_point(|patch| patch.node <= k);
        let mut met = Vec::new(*into.allocator());
        into.clear();
        'each: for i in first..end {
            let patch = &self.patches[i];
            self.bins.meeting(&patch.hull, &mut met)?;
            add_linked(&self.patches, patch, &met, into)?;
        }
        Ok(())
    }
}

/// For each of so many nodes the least of its cluster: of all that links of patches reach.
pub fn labels(alloc: Global, patches: Vec<Patch>, count: u32) -> Result<Vec<u32>, Memory>
    requires order { ArePatchesInOrder patches.items }
    requires each { All (IsPatch count) patches.items }
    ensures { IfOk result (λ labels. AreLabels count (AreNodesLinkedBy patches.items) labels.items) }
{
    touch_law();
    let hulls = patch_hulls(alloc, &patches)?;
    let bins = Bins::of(alloc, &hulls)?;
    let links = NodeLinks {
        count,
        patches,
        bins,
    };
    let labels = spreading::labels(alloc, &links)?;
    Ok(labels)
}

fn patch_hulls(alloc: Global, patches: &[Patch]) -> Result<Vec<Oct>, Memory>
    ensures { IfOk result (λ hulls. hulls.items ≡ patch_hulls patches.now) }
{
    let mut hulls = Vec::new(alloc);
    'each: for patch in patches {
        hulls.push(patch.hull)?;
    }
    Ok(hulls)
}

// Adds the nodes of those patches that were met and to which the patch leads.
fn add_linked(
    patches: &[Patch],
    patch: &Patch,
    met: &[u32],
    into: &mut Vec<u32>,
) -> Result<(), Memory>
    requires places { All (λ j. j < length patches.now) met.now }
    requires one { IsAnchorInRoom patch.now.shape }
    requires each { All (λ (p : Patch). IsAnchorInRoom p.shape) patches.now }
    ensures { IfOk result (λ _. AreAdded patches.now patch.now met.now into.old.items into.new.items) }
{
    'each: for j in met {
        let other = &patches[*j as usize];
        if patch.leads_to(other) {
            into.push(other.node)?;
        }
    }
    Ok(())
}
