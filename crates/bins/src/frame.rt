// Rectangles with level and upright sides, round octagons.
ghost use Rattle.std.specs.Prelude.{◌↔◌, ◌⊎◌, ◌<ℤ◌, IsTrue};
ghost use Rattle.plane.specs.Plane.{Bounds, IsMeeting};
ghost use Rattle.bins.specs.Inner.Frames.{IsInFrame};

use octagon::Oct;

// The rectangle from its least to its greatest x and y.
#[derive(Clone, Copy, Drop)]
pub struct Frame {
    pub x0: i64,
    pub x1: i64,
    pub y0: i64,
    pub y1: i64,
}

// The least rectangle round the octagon.
pub fn frame_of(oct: &Oct) -> Frame
    ensures { IsInFrame result oct.now }
{
    Frame {
        x0: oct.x0(),
        x1: oct.x1(),
        y0: oct.y0(),
        y1: oct.y1(),
    }
}

// The least rectangle round this one and the octagon.
pub fn grown(frame: Frame, oct: &Oct) -> Frame
    ensures new { IsInFrame result oct.now }
    ensures old { (o : Bounds) → IsInFrame frame o → IsInFrame result o }
{
    Frame {
        x0: frame.x0.min(oct.x0()),
        x1: frame.x1.max(oct.x1()),
        y0: frame.y0.min(oct.y0()),
        y1: frame.y1.max(oct.y1()),
    }
}

// Whether the rectangle lies apart from the octagon's: then the octagon meets nothing that is in it.
pub fn misses(frame: Frame, oct: &Oct) -> bool
    ensures { IsTrue result → (o : Bounds) → IsInFrame frame o → IsMeeting o oct.now → ⊥ }
{
    let across = are_apart(frame.x0, frame.x1, oct.x0(), oct.x1());
    let down = are_apart(frame.y0, frame.y1, oct.y0(), oct.y1());
    across || down
}

// Whether two ranges have no common number.
fn are_apart(a0: i64, a1: i64, b0: i64, b1: i64) -> bool
    ensures { IsTrue result ↔ ((a1 <ℤ b0) ⊎ (b1 <ℤ a0)) }
{
    a1 < b0 || b1 < a0
}
