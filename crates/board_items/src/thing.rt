// What an item of a board is.
ghost use Rattle.std.specs.Prelude.{◌≡◌, ◌||◌, codes, IfOk};
ghost use Rattle.board_text.specs.Things.{is_picture, on_board, of_footprint, zone_thing, drawing_thing};
ghost use Rattle.sexpr_text.specs.Items.{Item};
ghost use Rattle.board_items.specs.Things.{thing_shown, own_shown};

use board_text::Part;

/// What a list of the board is.
#[derive(Clone, Copy, PartialEq, Eq, Debug)]
pub enum Thing {
    Layers,
    Net,
    Track,
    CurvedTrack,
    Via,
    Footprint,
    RuleArea,
    Zone,
    Drawing,
    Other,
}

/// What a list of a footprint is.
#[derive(Clone, Copy, PartialEq, Eq, Debug)]
pub enum Own {
    Pad,
    Zone,
    Drawing,
    Other,
}

fn is_picture(item: &Part<'_>) -> bool
    ensures { result ≡ is_picture item.now.bytes item.now.item }
{
    item.is_headed(b"dimension") || item.is_headed(b"target") || item.is_headed(b"image")
}

/// What a list of the board is.
pub fn thing_on_board(item: &Part<'_>) -> Thing
    ensures { thing_shown result ≡ on_board item.now.bytes item.now.item }
{
    if item.is_headed(b"layers") {
        return Thing::Layers;
    }
    if item.is_headed(b"net") {
        return Thing::Net;
    }
    if item.is_headed(b"segment") {
        return Thing::Track;
    }
    if item.is_headed(b"arc") {
        return Thing::CurvedTrack;
    }
    if item.is_headed(b"via") {
        return Thing::Via;
    }
    if item.is_headed(b"footprint") {
        return Thing::Footprint;
    }
    if item.is_headed(b"zone") {
        return zone_or_area(item);
    }
    drawing_or_other(item)
}

fn zone_or_area(zone: &Part<'_>) -> Thing
    ensures { thing_shown result ≡ zone_thing zone.now.bytes zone.now.item }
{
    if zone.has(b"keepout") {
        Thing::RuleArea
    } else {
        Thing::Zone
    }
}

fn drawing_or_other(item: &Part<'_>) -> Thing
    ensures { thing_shown result ≡ drawing_thing item.now.bytes item.now.item }
{
    if item.begins(b"gr_") || is_picture(item) {
        Thing::Drawing
    } else {
        Thing::Other
    }
}

/// What a list of a footprint is.
pub fn thing_in_footprint(item: &Part<'_>) -> Own
    ensures { (footprint : Item) → own_shown footprint result ≡ of_footprint item.now.bytes footprint item.now.item }
{
    if item.is_headed(b"pad") {
        return Own::Pad;
    }
    if item.is_headed(b"zone") {
        return Own::Zone;
    }
    if item.begins(b"fp_") || item.is_headed(b"image") {
        return Own::Drawing;
    }
    Own::Other
}
