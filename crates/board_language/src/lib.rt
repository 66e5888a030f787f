//! The language of boards: what is read of each list of a `.kicad_pcb` file, and what offends in it.
//! The layer above uses the definitions of `specs/`: the board of a text's tree, and its first offence. What runs here only
//! takes the first of several kinds of offences.
//! Lengths are nanometres, lengths of shapes are halves of a nanometre, places are numbers of bytes.
#![tactic(auto)]

mod board;
mod kinds;
mod laws;
mod offence;

pub use board::{Area, FillSpans, Pad, Rules, Track, Via, Zone, ZoneSpans};
pub use board_text::{Name, Stamped};
pub use copper_shape::Edge;
pub use kinds::{first_kind, number_kind, when};
pub use laws::one_offence_law;
pub use offence::{Offence, OffenceKind};

/// What a pad is.
#[derive(Clone, Copy, PartialEq, Eq, Debug)]
pub enum PadKind {
    /// `thru_hole`: copper on its layers and in its hole.
    Plated,
    /// `smd` or `connect`: copper on its layers alone.
    Surface,
    /// `np_thru_hole`: a bare hole, which copper of every layer keeps clear of.
    Hole,
}

/// How a pad is joined to a zone of its net.
#[derive(Clone, Copy, PartialEq, Eq, Debug)]
pub enum Join {
    /// By four spokes across a gap.
    Thermal,
    /// By copper all round.
    Solid,
    /// Not at all: the zone keeps clear of it.
    Apart,
    /// By spokes where the pad is plated, and by copper all round where it is not.
    PlatedThermal,
}

/// Which islands of a zone stay: components of its copper that nothing anchors.
#[derive(Clone, Copy, PartialEq, Eq, Debug)]
pub enum IslandMode {
    /// None: islands go.
    Remove,
    /// All of them.
    Keep,
    /// Those whose area isn't below so many millionths of a square millimetre, each of a million square nanometres.
    Below(u64),
}

/// What kind of edge a drawing is.
#[derive(Clone, Copy, PartialEq, Eq, Debug)]
pub enum EdgeForm {
    Line,
    Rectangle,
    Arc,
    Polygon,
    /// A circle, a curve, a text and whatever else.
    Other,
}
