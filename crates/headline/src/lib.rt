//! What is true of every board that a run fills, writes and reports: definitions with their laws.
//! The layer above uses `HeadlineLaw`, which the function here states; nothing here runs.
//! Places are in units of the grid (2 nm) or in nanometres, as each definition says.
#![tactic(auto)]

ghost use Rattle.headline.specs.Headline.{HeadlineLaw};

use board_facts::accepted_law;
use fill_rules::{clearance_in_nanometres, cluster_law, label_law};
use fills::fill_points_law;
use outlines::covered_law;
use output_rules::nets_law;
use ratsnest::tree_law;
use run_rules::range_law;

/// Whatever the words and the contents: the rings of the board that is filled cover exactly the copper that the rules want, which
/// keeps the clearances; the clusters of its report are the classes of touching copper, and the lines of each net are a least tree of
/// its clusters, one line fewer than there are.
pub fn headline_law()
    ensures { HeadlineLaw }
{
    accepted_law();
    covered_law();
    fill_points_law();
    clearance_in_nanometres();
    cluster_law();
    label_law();
    nets_law();
    tree_law();
    range_law();
}
