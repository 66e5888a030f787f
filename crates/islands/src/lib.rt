//! What hangs together in a list of octagons, what holds it in place, and what lies inside the board's edge.
//! The crates above use `parts`, `kept` and `inside`, the definitions of `specs/`, and the law of parts.
//! Octagons and places are in units of the grid (2 nm), board edges in nanometres, cores and radii of copper in halves.
#![tactic(auto)]

ghost use Rattle.islands.specs.Laws.{PartsLaw, OnePartsLaw};

mod edges;
mod firsts;
mod held;
mod labels;

pub use edges::inside;
pub use held::kept;
pub use labels::parts;

/// Two octagons have one label exactly where they are in one part, and a list of octagons has at most one list of labels.
pub fn parts_law()
    ensures same { PartsLaw }
    ensures one { OnePartsLaw }
{}
