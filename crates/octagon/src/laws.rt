//! The laws of octagons: what their calls rest on, over the points of the plane alone. Nothing here runs.
ghost use Rattle.plane.specs.Laws.{EuclideanLaw};
ghost use Rattle.octagon.specs.Room.{BallReachLaw, SumReachLaw, MovedReachLaw, PointsReachLaw, RoomLaw};
ghost use Rattle.octagon.specs.Laws.{SumLaw, MeetingLaw, SeparationLaw, BarredLaw, OctDistanceLaw};

/// The sums of the points of two tight octagons are the points of a tight octagon, that of the summed bounds.
pub fn sum_law()
    ensures { SumLaw }
{}

/// Two tight octagons that meet have a common point with whole or half coordinates.
pub fn meeting_law()
    ensures { MeetingLaw }
{}

/// Octagons are near exactly where the one has a point strictly in the other plus the ball of the need. A brush at a
/// grid point is near an octagon exactly where that grid point is strictly in the octagon plus both balls.
pub fn separation_law()
    ensures near { SeparationLaw }
    ensures barred { BarredLaw }
{}

/// How far octagons reach: a ball, a sum, a moved octagon, and one that is known by its grid points. What reaches at
/// most 2^40 has the room that `sum` and `shift` ask for.
pub fn room_law()
    ensures ball { BallReachLaw }
    ensures sum { SumReachLaw }
    ensures moved { MovedReachLaw }
    ensures points { PointsReachLaw }
    ensures room { RoomLaw }
{}

/// Where two octagons are not near at a, every two points of them have a distance of at least a.
pub fn distance_law()
    ensures { OctDistanceLaw }
{}

/// The Euclidean step: points that are not near at a have a distance of at least a.
pub fn euclidean_step()
    ensures { EuclideanLaw }
{}
