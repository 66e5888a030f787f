// The copper of tracks and vias, in halves of a nanometre.
ghost use Rattle.std.specs.Prelude.{◌≡◌};
ghost use Rattle.cores.specs.Room.{IsInRoom};
ghost use Rattle.hulls.specs.Hulls.{in_halves, corner};
ghost use Rattle.board_language.specs.Facts.{IsPlaceInReach, IsCopperSize};
ghost use Rattle.fill_rules.specs.Needs.{track_copper, via_copper};

use board_model::{Track, Via};
use copper_shape::Shape;
use grid_num::Point;

/// All that is at most half the track's width away from its middle line.
pub fn track_copper(track: &Track) -> Shape
    requires from { IsPlaceInReach track.now.from }
    requires to { IsPlaceInReach track.now.to }
    requires width { IsCopperSize track.now.width }
    ensures { result ≡ track_copper track.now }
{
    Shape::capsule(in_halves(track.from), in_halves(track.to), track.width)
}

/// The via's disc.
pub fn via_copper(via: &Via) -> Shape
    requires at { IsPlaceInReach via.now.at }
    requires size { IsCopperSize via.now.size }
    ensures { result ≡ via_copper via.now }
{
    Shape::disc(in_halves(via.at), via.size)
}

// Nanometres as halves.
fn in_halves(p: Point) -> Point
    requires { IsInRoom 500000000 p }
    ensures value { result ≡ corner (in_halves p) }
    ensures within { IsInRoom 2000000000 result }
{
    Point {
        x: p.x + p.x,
        y: p.y + p.y,
    }
}
