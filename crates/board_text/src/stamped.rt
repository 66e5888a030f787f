// What a stamp belongs to.

/// What a stamp belongs to: a track, a via or a copper zone by its number among those that are read, or another `zone`,
/// which is a rule area or isn't read.
#[derive(Clone, Copy, PartialEq, Eq, Debug)]
pub enum Stamped {
    Track(u32),
    Via(u32),
    Zone(u32),
    Other,
}
