// An edge as the code has it.
use grid_num::Point;

/// A straight way from one corner of a sheet to another, with copper on its right.
#[derive(Clone, Copy, PartialEq, Eq, Debug)]
pub struct BoundaryEdge {
    /// Where it begins.
    pub start: Point,
    /// Where it ends.
    pub finish: Point,
}
