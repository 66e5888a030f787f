// What is read of a board. Lengths and places are in nanometres; x grows to the right and y downward.
ghost use Rattle.std.specs.Prelude.{◌≡◌};
ghost use Rattle.board_language.specs.Clearances.{AreSoundRules};

use crate::{IslandMode, Join, PadKind};
use copper_shape::Shape;
use grid_num::Point;
use outline_slab::Outline;
use sexpr_text::Span;
use std::marker::Model;

/// A straight piece of copper on one layer, which is told by its number.
#[derive(Clone, Copy, PartialEq, Eq, Debug)]
pub struct Track {
    pub from: Point,
    pub to: Point,
    pub width: u32,
    pub layer: u8,
    pub net: u32,
    /// Where its list stands in the text, and on which line.
    pub span: Span,
    pub line: u64,
}

/// A disc of copper on several layers. A set of layers is a number, its lowest bit the first layer.
#[derive(Clone, Copy, PartialEq, Eq, Debug)]
pub struct Via {
    pub at: Point,
    pub size: u32,
    pub layers: u32,
    pub net: u32,
    pub span: Span,
    pub line: u64,
}

/// A pad, or a bare hole, with what it says for itself or its footprint says for it.
#[derive(Clone, Copy, PartialEq, Eq, Debug)]
pub struct Pad {
    /// The copper, in halves of a nanometre.
    pub shape: Shape,
    pub at: Point,
    pub layers: u32,
    pub net: u32,
    pub kind: PadKind,
    pub clearance: u32,
    /// How it is joined to zones of its net; the zone says where the pad doesn't.
    pub join: Option<Join>,
    /// The gap and the width of the bridges of its thermal relief.
    pub gap: Option<u32>,
    pub bridge: Option<u32>,
    pub line: u64,
}

/// The lists of a zone that hold fills which were written before, in the order of the file. Contracts see their spans.
#[derive(Debug, Drop)]
pub struct FillSpans {
    spans: Vec<Span>,
}

impl Model for FillSpans {
    ghost use Rattle.std.specs.Prelude.{List};
    ghost use Rattle.sexpr_text.specs.declared.Span.{Span};

    ghost Value = { List Span };

    ghost view = { λ f. f.spans.items };
}

impl FillSpans {
    /// The spans of the vector.
    pub fn of(spans: Vec<Span>) -> FillSpans
        ensures { result ≡ spans.items }
    {
        FillSpans { spans }
    }

    /// The spans.
    pub fn spans(&self) -> &[Span]
        ensures { result.now ≡ self.now }
    {
        self.spans.as_slice()
    }
}

/// Where the lists of a zone stand that an edit replaces, and where its rings go.
#[derive(Debug, Drop)]
pub struct ZoneSpans {
    pub priority: Option<Span>,
    /// `connect_pads`, and the `clearance` in it.
    pub connect: Option<Span>,
    pub clearance: Option<Span>,
    /// The place behind the last byte before the closing parenthesis that isn't white space.
    pub tail: usize,
    pub fills: FillSpans,
}

/// A copper zone.
#[derive(Debug, Drop)]
pub struct Zone {
    pub outline: Outline,
    pub layers: u32,
    pub net: u32,
    pub priority: u32,
    pub join: Join,
    pub clearance: u32,
    /// The minimum thickness of copper.
    pub thickness: u32,
    /// The gap and the width of the bridges of thermal reliefs.
    pub gap: u32,
    pub bridge: u32,
    pub islands: IslandMode,
    pub spans: ZoneSpans,
    pub span: Span,
    pub line: u64,
}

/// A rule area that keeps copper pour out.
#[derive(Debug, Drop)]
pub struct Area {
    pub outline: Outline,
    pub layers: u32,
}

/// The clearance that holds everywhere, and the one to the board's edge: 2 nm to 100 mm each. Contracts see the record of both.
#[derive(Clone, Copy, PartialEq, Eq, Debug)]
pub struct Rules {
    pub floor: u32,
    pub edge: u32,
}

impl Model for Rules {
    ghost use Rattle.board_language.specs.Clearances.{Clearances, AreSoundRules};

    ghost Value = { Clearances };

    ghost view = { λ r. record { floor = r.floor; edge = r.edge } };

    ghost invariant = { λ r. AreSoundRules (record { floor = r.floor; edge = r.edge }) };

    ghost inverse = { λ v. record { floor = v.floor; edge = v.edge } };
}

impl Rules {
    /// Both are from 2 nm to 100 mm, whatever the board. It only says so, for callers to know.
    pub fn sound(&self)
        ensures { AreSoundRules self.now }
    {
        let _ = &self.floor;
    }
}
