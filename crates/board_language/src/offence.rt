// What may be wrong in an item of a board.
use grid_num::NumFault;
use outline_slab::OutlineFault;

/// What is wrong in an item. The kinds are tried in this order, and the first that holds counts.
#[derive(Clone, Copy, PartialEq, Eq, Debug)]
pub enum OffenceKind {
    /// The root isn't a `kicad_pcb`.
    NotBoard,
    /// The version isn't a whole number from 20211014 to 20241231.
    Version,
    /// A track is an arc.
    CurvedTrack,
    /// A drawing, text, picture or dimension stands on a copper layer.
    CopperGraphic,
    /// A footprint has a piece of the board's edge.
    FootprintEdge,
    /// A footprint has a zone.
    FootprintZone,
    /// A piece of the board's edge is no line, rectangle, polygon or arc of at most a half circle.
    EdgeCurve,
    /// A zone is a teardrop.
    Teardrop,
    /// A zone is filled with a hatch.
    HatchFill,
    /// A zone's corners are smoothed.
    Smoothing,
    /// A zone's island mode is none of 0, 1 and 2.
    IslandArea,
    /// A zone has several outlines.
    ManyOutlines,
    /// A zone's outline has an arc.
    PolygonArc,
    /// A pad's type is unknown.
    PadType,
    /// A pad's shape isn't a circle, rectangle, oval or rounded rectangle, or it is chamfered.
    PadShape,
    /// A pad's shape is off its hole.
    PadOffset,
    /// A list or a number that is needed isn't there.
    MissingPart,
    /// A number that is needed can't be read.
    Number(NumFault),
    /// An angle isn't a multiple of 90 degrees.
    Angle,
    /// A length or ratio is out of its range.
    BadSize,
    /// A zone's minimum thickness is below 0.001 mm.
    Thin,
    /// A layer is declared twice.
    DoubleLayer,
    /// A layer isn't a declared copper layer.
    UnknownLayer,
    /// A net is declared twice.
    DoubleNet,
    /// A net isn't declared.
    UnknownNet,
    /// A stamp stands at another track, via or zone before.
    DoubleStamp,
    /// A zone's outline breaks a rule of outlines.
    Outline(OutlineFault),
    /// The board is too large from here on.
    TooMany,
}

/// The first offence in a board.
#[derive(Clone, Copy, PartialEq, Eq, Debug)]
pub struct Offence {
    /// The place of the item in the text, in bytes.
    pub at: usize,
    /// The line of that place, from 1.
    pub line: u64,
    pub kind: OffenceKind,
}
