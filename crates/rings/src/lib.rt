//! The loops and the rings that bound a sheet of copper: definitions with their laws.
//! The crates above use `Loop`, `Ring` and `Traced`, the definitions of `specs/` and the laws that the functions here state;
//! nothing here runs.
//! Coordinates are nanometres, as those of strips.
#![tactic(auto)]

ghost use Rattle.rings.specs.Examples.{ExamplesLaw};
ghost use Rattle.rings.specs.Laws.{OneLoopsLaw, OneRingsLaw, LoopsCoverLaw, RingsCoverLaw, SomeLoopsLaw, SomeRingsLaw, SomeSlitsLaw, NextLaw, SlitsNextLaw, UncutLaw, UnionCoverLaw, WalksLaw, SlitsWalksLaw, LoopsByLaw, SlitsByLaw, DrawnRingsLaw, RingsByLaw};

mod outlines;

pub use outlines::{Loop, Ring, Traced};

/// Just one list of loops is right for a sheet, and just one list of rings.
pub fn one_law()
    ensures loops { OneLoopsLaw }
    ensures rings { OneRingsLaw }
{}

/// The loops of a sheet, counted together by the even-odd rule, cover exactly its points, and so do its rings.
pub fn cover_law()
    ensures loops { LoopsCoverLaw }
    ensures rings { RingsCoverLaw }
    ensures union { UnionCoverLaw }
{}

/// Every sheet has loops and rings, and each of its holes has a slit.
pub fn some_law()
    ensures loops { SomeLoopsLaw }
    ensures slits { SomeSlitsLaw }
    ensures rings { SomeRingsLaw }
{}

/// Each boundary edge has just one next edge, and is the next one of no two; with the slits of all holes too, which cut no
/// edge, since they end at corners. So a walk along next edges closes where it began. In what order edges are listed doesn't matter.
pub fn next_law()
    ensures boundary { NextLaw }
    ensures slits { SlitsNextLaw }
    ensures uncut { UncutLaw }
{}

/// The plain program gives walks that use each edge once, along the boundary and along the boundary with its slits, and its
/// loops, slits and rings are the right ones, in whatever order it is given the edges.
pub fn program_law()
    ensures boundary { WalksLaw }
    ensures slits { SlitsWalksLaw }
    ensures loops { LoopsByLaw }
    ensures cuts { SlitsByLaw }
    ensures drawn { DrawnRingsLaw }
    ensures rings { RingsByLaw }
{}

/// What the definitions say of four small boards: a zone with a via in it, squares that meet in one point, two holes side
/// by side, and a bay that touches an edge.
pub fn examples_law()
    ensures { ExamplesLaw }
{}
