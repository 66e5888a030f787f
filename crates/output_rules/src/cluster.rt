// Lists of numbers, as a report has them.
ghost use Rattle.std.specs.Prelude.{◌≡◌};

use std::marker::Model;

/// The nodes of a cluster, by their numbers. Contracts see the list.
#[derive(Debug, Drop)]
pub struct Cluster {
    nodes: Vec<u32>,
}

impl Model for Cluster {
    ghost use Rattle.std.specs.Prelude.{ℕ, List};

    ghost Value = { List ℕ };

    ghost view = { λ c. c.nodes.items };
}

impl Cluster {
    /// The cluster of these nodes.
    pub fn of(nodes: Vec<u32>) -> Cluster
        ensures { result ≡ nodes.items }
    {
        Cluster { nodes }
    }

    /// The nodes.
    pub fn nodes(&self) -> &[u32]
        ensures { result.now ≡ self.now }
    {
        self.nodes.as_slice()
    }
}
