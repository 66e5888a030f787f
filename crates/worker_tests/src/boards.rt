// Boards of rectangular zones, 10 mm high.
use board_language::Rules;
use board_model::Board;
use std::alloc::{AllocError, Global};
use std::test::Fail;

// A clearance of 0.2 mm everywhere, and one of 0.5 mm to the board's edge.
const RULES: Rules = Rules {
    floor: 200_000,
    edge: 500_000,
};

/// A board of four layers and four nets, up to its first zone.
const HEAD: &str = "(kicad_pcb (version 20221018) (layers (0 F.Cu) (1 In1.Cu) (2 In2.Cu) (31 B.Cu))
  (net 1 A) (net 2 B) (net 3 C) (net 4 D)";

/// A zone from left to right: clearance 0.2 mm, thickness 0.25 mm, gap and bridges 0.5 mm.
pub fn zone(
    alloc: Global,
    net: u32,
    priority: u32,
    layer: &str,
    left: &str,
    right: &str,
) -> Result<String, AllocError> {
    format!(in alloc;
        "(zone (net {net}) (layers {layer}) (priority {priority}) (connect_pads (clearance 0.2))
  (min_thickness 0.25) (fill yes (thermal_gap 0.5) (thermal_bridge_width 0.5) (island_removal_mode 1))
  (polygon (pts (xy {left} 0) (xy {right} 0) (xy {right} 10) (xy {left} 10))))"
    )
}

/// The board of the text.
pub fn board(alloc: Global, text: &str) -> Result<Board, Fail> {
    let tree = sexpr_text::read(alloc, text.as_bytes())?;
    Ok(Board::read(alloc, text.as_bytes(), &tree, RULES)?)
}

/// The text of a board of these zones.
fn text_of(alloc: Global, zones: &[String]) -> Result<String, AllocError> {
    let mut text = String::from_str(alloc, HEAD)?;
    for zone in zones {
        text.push_str(zone)?;
    }
    text.push_str(")")?;
    Ok(text)
}

/// The board of these zones.
pub fn board_of(alloc: Global, zones: &[String]) -> Result<Board, Fail> {
    board(alloc, text_of(alloc, zones)?.as_str())
}
