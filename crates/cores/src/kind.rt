// What a core is.
use crate::area::AreaBounds;
use grid_num::Point;

/// The straight way between two places.
#[derive(Clone, Copy, PartialEq, Eq, Debug)]
pub struct Line {
    pub from: Point,
    pub to: Point,
}

/// What a core is: its bounds, which are tight, or its ends.
#[derive(Clone, Copy, PartialEq, Eq, Debug)]
pub enum Kind {
    Area(AreaBounds),
    Line(Line),
}
