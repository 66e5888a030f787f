// The board as a value.
ghost use Rattle.std.specs.Prelude.{◌≡◌, IfOk, IfErr};
ghost use Rattle.sexpr_text.specs.Items.{Item};
ghost use Rattle.sexpr_text.specs.Trees.{IsTreeOf, IsTreeAt};
ghost use Rattle.board_language.specs.Reading.{IsAccepted};
ghost use Rattle.board_language.specs.Facts.{IsSoundBoard};
ghost use Rattle.board_items.specs.Stamps.{stamped};
ghost use Rattle.board_model.specs.Whole.{whole_board, IsRefusal};

use crate::error::BoardError;
use crate::items::read_all;
use crate::names::names_of;
use crate::reading::ReadSoFar;
use board_items::{Numbers, known_of, version_of};
use board_language::{Area, Edge, Name, Pad, Rules, Stamped, Track, Via, Zone};
use board_text::Part;
use sexpr_text::Tree;
use std::alloc::Global;
use std::marker::Model;

/// A board in which nothing offends. Contracts see the board that its text spells, with its version and the
/// stamps of its things; `sound` says what every such board has.
#[derive(Drop)]
pub struct Board {
    version: u32,
    layers: Vec<Name>,
    nets: Numbers,
    found: ReadSoFar,
    rules: Rules,
}

impl Model for Board {
    ghost use Rattle.board_language.specs.Facts.{IsSoundBoard};
    ghost use Rattle.board_model.specs.Whole.{Whole, whole_from};

    ghost Value = { Whole };

    ghost view = { λ b. whole_from b.version b.layers.items b.nets b.found b.rules };

    ghost invariant = { λ b. IsSoundBoard (whole_from b.version b.layers.items b.nets b.found b.rules).board };
}

impl Board {
    /// The board of a text's tree, under these rules, or the first offence in it: that of the item that stands first in the
    /// text and, of one item, the kind that is tried first.
    ///
    /// # Errors
    ///
    /// Want of memory, or the first offence.
    pub fn read(alloc: Global, bytes: &[u8], tree: &Tree, rules: Rules) -> Result<Board, BoardError>
        requires { IsTreeOf bytes.now tree.now }
        ensures board { IfOk result (λ b. (root : Item) → IsTreeAt bytes.now tree.now root → IsAccepted bytes.now root × (b ≡ whole_board bytes.now root rules)) }
        ensures refused { IfErr result (λ e. (root : Item) → IsTreeAt bytes.now tree.now root → IsRefusal bytes.now root e) }
    {
        let root = Part::root(tree, bytes);
        let version = version_of(alloc, &root)?;
        let known = known_of(alloc, &root)?;
        let found = read_all(alloc, &known, &root)?;
        let layers = names_of(alloc, known.copper.names())?;
        rules.sound();
        Ok(Board {
            version,
            layers,
            nets: known.nets,
            found,
            rules,
        })
    }

    /// The board has all that every accepted one has. It only says so, for callers to know.
    pub fn sound(&self)
        ensures { IsSoundBoard self.now.board }
    {
        let _ = &self.rules;
    }

    /// The version of the board's text.
    pub fn version(&self) -> u32
        ensures { result ≡ self.now.version }
    {
        self.version
    }

    /// The copper layers, in the board's order: a layer's number is its place.
    pub fn layers(&self) -> &[Name]
        ensures { result.now ≡ self.now.board.layers }
    {
        &self.layers
    }

    /// The numbers of the declared nets, in the order of the text.
    pub fn nets(&self) -> &[u32]
        ensures { result.now ≡ self.now.board.nets }
    {
        self.nets.numbers()
    }

    /// The tracks, in the order of the text, as all that follow.
    pub fn tracks(&self) -> &[Track]
        ensures { result.now ≡ self.now.board.tracks }
    {
        self.found.tracks()
    }

    /// The vias.
    pub fn vias(&self) -> &[Via]
        ensures { result.now ≡ self.now.board.vias }
    {
        self.found.vias()
    }

    /// The pads, and the bare holes among them.
    pub fn pads(&self) -> &[Pad]
        ensures { result.now ≡ self.now.board.pads }
    {
        self.found.pads()
    }

    /// The copper zones.
    pub fn zones(&self) -> &[Zone]
        ensures { result.now ≡ self.now.board.zones }
    {
        self.found.zones()
    }

    /// The rule areas that keep copper pour out.
    pub fn areas(&self) -> &[Area]
        ensures { result.now ≡ self.now.board.areas }
    {
        self.found.areas()
    }

    /// The pieces of the board's edge.
    pub fn edges(&self) -> &[Edge]
        ensures { result.now ≡ self.now.board.edges }
    {
        self.found.edges()
    }

    /// The rules that the board is read under.
    pub fn rules(&self) -> Rules
        ensures { result ≡ self.now.board.rules }
    {
        self.rules
    }

    /// What has this stamp: a track, via or zone by its place among those, or a `zone` that isn't among them.
    pub fn stamp_of(&self, stamp: &[u8]) -> Option<Stamped>
        ensures { result ≡ stamped self.now.stamps stamp.now }
    {
        self.found.stamped(stamp)
    }
}
