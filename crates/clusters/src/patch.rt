// Patches: each is one hull of one shape of copper, with the node that it belongs to.
ghost use Rattle.std.specs.Prelude.{◌↔◌, IsTrue};
ghost use Rattle.islands.specs.Held.{IsAnchorInRoom};
ghost use Rattle.clusters.specs.Inner.Patches.{HaveCommonLayer, IsPatchNeighbour};

use copper_shape::Shape;
use octagon::Oct;

/// One hull of a shape of copper.
#[derive(Clone, Copy, Drop)]
pub struct Patch {
    /// The number of the node that the copper belongs to, its net, and the set of its layers.
    pub node: u32,
    pub net: u32,
    pub layers: u32,
    pub shape: Shape,
    pub hull: Oct,
}

impl Patch {
    /// Whether the other one is of another node of the same net, shares a layer with this one, and its copper touches that of
    /// this one.
    pub fn leads_to(&self, other: &Patch) -> bool
        requires one { IsAnchorInRoom self.now.shape }
        requires other { IsAnchorInRoom other.now.shape }
        ensures { IsTrue result ↔ IsPatchNeighbour self.now other.now }
    {
        if self.node == other.node {
            return false;
        }
        if self.net != other.net {
            return false;
        }
        if !share_layer(self.layers, other.layers) {
            return false;
        }
        self.shape.touches(&other.shape)
    }
}

// Whether some layer is in both sets.
fn share_layer(a: u32, b: u32) -> bool
    ensures { IsTrue result ↔ HaveCommonLayer a b }
{
    a & b != 0
}
