// What has been read of a board so far.
ghost use Rattle.std.specs.Prelude.{◌≡◌, ◌+◌, ◌≤◌, ℕ, List, Bool, false, option_map};
ghost use Rattle.board_language.specs.Counts.{is_first_over};
ghost use Rattle.board_language.specs.Offences.{is_stamped_among};
ghost use Rattle.board_items.specs.Known.{context};
ghost use Rattle.board_items.specs.Stamps.{stamps_of, stamped};
ghost use Rattle.board_model.specs.State.{nothing_read_yet};
ghost use Rattle.board_model.specs.Steps.{is_over, has_few};

use board_items::{Known, Numbers, Stamps};
use board_language::{Area, Edge, Pad, Track, Via, Zone};
use board_text::Stamped;
use std::alloc::Global;
use std::marker::Model;

/// What has been read of a board so far: its things, and what the items that follow are tried with.
#[derive(Drop)]
pub struct ReadSoFar {
    pub layers: bool,
    pub things: u32,
    pub outlines: u32,
    pub nets: Numbers,
    pub stamps: Stamps,
    pub tracks: Vec<Track>,
    pub vias: Vec<Via>,
    pub pads: Vec<Pad>,
    pub zones: Vec<Zone>,
    pub areas: Vec<Area>,
    pub edges: Vec<Edge>,
}

impl Model for ReadSoFar {
    ghost use Rattle.std.specs.Prelude.{◌≤◌, length};
    ghost use Rattle.board_model.specs.State.{State};

    ghost Value = { State };

    ghost view = { λ r. record {
      layers = r.layers;
      things = r.things;
      outlines = r.outlines;
      nets = r.nets;
      stamps = r.stamps;
      tracks = r.tracks.items;
      vias = r.vias.items;
      pads = r.pads.items;
      zones = r.zones.items;
      areas = r.areas.items;
      edges = r.edges.items;
    } };

    ghost invariant = { λ r. (r.things ≤ 200000) × (r.outlines ≤ 2000) × (length r.tracks.items ≤ r.things) × (length r.vias.items ≤ r.things) × (length r.zones.items ≤ r.things) };
}

impl ReadSoFar {
    /// Before the first item.
    pub fn new(alloc: Global) -> ReadSoFar
        ensures { result ≡ nothing_read_yet }
    {
        ReadSoFar {
            layers: false,
            things: 0,
            outlines: 0,
            nets: Numbers::new(alloc),
            stamps: Stamps::new(alloc),
            tracks: Vec::new(alloc),
            vias: Vec::new(alloc),
            pads: Vec::new(alloc),
            zones: Vec::new(alloc),
            areas: Vec::new(alloc),
            edges: Vec::new(alloc),
        }
    }

    /// Whether so many things and outlines more are too many.
    pub fn is_over(&self, things: usize, outlines: usize) -> bool
        ensures value { result ≡ is_over self.now things outlines }
        ensures room { result ≡ false → (self.now.things + things ≤ 200000) × (self.now.outlines + outlines ≤ 2000) }
    {
        is_first_over(200_000, self.things, things) || is_first_over(2_000, self.outlines, outlines)
    }

    /// Whether another item before has the same stamp.
    pub fn is_double(&self, stamp: &Option<Vec<u8>>) -> bool
        ensures { result ≡ is_stamped_among (stamps_of self.now.stamps) (option_map (λ v. v.items) stamp.now) }
    {
        match stamp {
            Some(name) => self.stamps.has(name.as_slice()),
            None => false,
        }
    }

    /// The tracks so far.
    pub fn tracks(&self) -> &[Track]
        ensures { result.now ≡ self.now.tracks }
    {
        &self.tracks
    }

    /// The vias so far.
    pub fn vias(&self) -> &[Via]
        ensures { result.now ≡ self.now.vias }
    {
        &self.vias
    }

    /// The pads so far.
    pub fn pads(&self) -> &[Pad]
        ensures { result.now ≡ self.now.pads }
    {
        &self.pads
    }

    /// The zones so far.
    pub fn zones(&self) -> &[Zone]
        ensures { result.now ≡ self.now.zones }
    {
        &self.zones
    }

    /// The rule areas so far.
    pub fn areas(&self) -> &[Area]
        ensures { result.now ≡ self.now.areas }
    {
        &self.areas
    }

    /// The edges so far.
    pub fn edges(&self) -> &[Edge]
        ensures { result.now ≡ self.now.edges }
    {
        &self.edges
    }

    /// What has this stamp.
    pub fn stamped(&self, stamp: &[u8]) -> Option<Stamped>
        ensures { result ≡ stamped self.now.stamps stamp.now }
    {
        self.stamps.find(stamp)
    }
}

/// Whether the most is passed for the first time, with so many before and so many more.
fn is_first_over(most: u32, before: u32, own: usize) -> bool
    ensures { result ≡ is_first_over most before own }
{
    before <= most && ((most - before) as usize) < own
}

/// Whether a board has at most 32 copper layers.
pub fn has_few(known: &Known) -> bool
    ensures { (bytes : List ℕ) → result ≡ has_few (context bytes known.now) }
{
    known.copper.len() <= 32
}
