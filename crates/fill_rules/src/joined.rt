// What hangs together on a filled board: its nodes (pads, tracks, vias and parts of fills), which of them touch, and their anchors: the laws.
ghost use Rattle.fill_rules.specs.ClusterLaws.{NodeLaw, TouchLaw, JoinLaw, ClusterLaw, OneLabellingLaw, LabelLaw};

/// Each node is copper of a net: a pad, a track, a via or a part of a fill without a net is none.
pub fn node_law()
    ensures { NodeLaw }
{}

/// Touching and joining have no order.
pub fn touch_law()
    ensures touch { TouchLaw }
    ensures join { JoinLaw }
{}

/// Clusters are classes.
pub fn cluster_law()
    ensures { ClusterLaw }
{}

/// At most one list of labels fits a board and its fills, and two nodes have one label exactly where they are in one
/// cluster.
pub fn label_law()
    ensures one { OneLabellingLaw }
    ensures clusters { LabelLaw }
{}
