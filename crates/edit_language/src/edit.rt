// Edits of a board, what may be wrong in a script of them, and why one is refused. Lengths and places are in nanometres;
// x grows to the right and y downward.
use board_language::{Name, Offence};
use grid_num::Point;

/// A change of one thing of a board, as a line of a script says it. A thing is named by its stamp.
#[derive(Debug, Drop)]
pub enum Edit {
    /// A new track from one place to another.
    Track {
        from: Point,
        to: Point,
        width: u32,
        layer: Name,
        net: u32,
        stamp: Name,
    },
    /// A new via with copper on all layers from the one to the other.
    Via {
        at: Point,
        size: u32,
        drill: u32,
        top: Name,
        bottom: Name,
        net: u32,
        stamp: Name,
    },
    /// A track or via is taken away.
    Drop {
        stamp: Name,
    },
    /// A zone gets another priority.
    Priority {
        stamp: Name,
        value: u32,
    },
    /// A zone gets another clearance.
    Clearance {
        stamp: Name,
        value: u32,
    },
}

/// What is wrong in a line of a script. The kinds are tried in this order.
#[derive(Clone, Copy, PartialEq, Eq, Debug)]
pub enum EditKind {
    /// It is the 10,001st edit.
    TooLong,
    /// The first word is no edit's, or a word that stands for a layer or a stamp is none.
    BadWord,
    /// There are fewer words than the edit has.
    TooFewWords,
    /// There are more words than the edit has.
    TooManyWords,
    /// A word that stands for a length or a whole number is none.
    BadNumber,
}

/// The first faulty line of a script, counted from 1.
#[derive(Clone, Copy, PartialEq, Eq, Debug)]
pub struct EditFault {
    pub line: u64,
    pub kind: EditKind,
}

/// Why an edit is refused. The refusals are tried in this order.
#[derive(Clone, Copy, PartialEq, Eq, Debug)]
pub enum EditRefusal {
    /// No track, via or zone has the stamp.
    NoStamp,
    /// The stamp is that of a thing which the edit doesn't change: it drops tracks and vias alone, and sets copper zones
    /// that are read alone.
    WrongKind,
    /// A new track or via has the stamp of another thing.
    StampTaken,
    /// The edited board offends.
    Breaks(Offence),
}
