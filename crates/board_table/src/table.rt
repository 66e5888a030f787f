// The lines that are said of all boards of a file.
use crate::add::add;
use crate::cases::{Case, cases};
use crate::copper::{add_pad, add_track, add_via};
use crate::outlines::{add_area, add_edge, add_zone};
use crate::repeats::full_text;
use crate::verdict::{Verdict, verdict_on};
use board_model::{Board, Name};
use grid_num::Memory;
use std::alloc::Global;

/// What a title line says between its mark and its line feed.
fn title_text(title: &[u8]) -> &[u8] {
    match title {
        [b'=', b'=', b' ', text @ .., b'\n'] => text,
        _ => title,
    }
}

/// The stamps that a title asks for, each behind a space: what it says behind a question mark.
fn asked(title: &[u8]) -> &[u8] {
    'bytes: for at in 0..title.len() {
        if title[at] == b'?' {
            return &title[at + 1..];
        }
    }
    b""
}

/// Adds a line of what each of these stamps belongs to, where there are some.
fn add_stamps(
    alloc: Global,
    out: &mut Vec<u8>,
    stamps: &[u8],
    board: &Board,
) -> Result<(), Memory> {
    let [b' ', stamps @ ..] = stamps else {
        return Ok(());
    };
    'stamps: for stamp in stamps.split(|byte| *byte == b' ') {
        add(out, b"  stamp ")?;
        add(out, stamp)?;
        let thing = board.stamp_of(stamp);
        add(out, format!(in alloc; ": {thing:?}\n")?.as_bytes())?;
    }
    Ok(())
}

/// Adds the names of a board's layers, the numbers of its nets, and how many things it has of each kind.
fn add_counts(alloc: Global, out: &mut Vec<u8>, board: &Board) -> Result<(), Memory> {
    add(out, b"layers")?;
    'layers: for layer in board.layers() {
        is_send_and_sync::<Name>(layer);
        add(out, b" ")?;
        add(out, layer.bytes())?;
    }
    add(out, b" nets")?;
    'nets: for net in board.nets() {
        add(out, format!(in alloc; " {net}")?.as_bytes())?;
    }
    let tracks = board.tracks().len();
    let vias = board.vias().len();
    let pads = board.pads().len();
    let zones = board.zones().len();
    let areas = board.areas().len();
    let edges = board.edges().len();
    let counts = format!(in alloc;
        " tracks {tracks} vias {vias} pads {pads} zones {zones} areas {areas} edges {edges}\n"
    )?;
    add(out, counts.as_bytes())
}

/// Adds the lines of a board's copper.
fn add_copper(alloc: Global, out: &mut Vec<u8>, board: &Board) -> Result<(), Memory> {
    'tracks: for track in board.tracks() {
        add_track(alloc, out, track)?;
    }
    'vias: for via in board.vias() {
        add_via(alloc, out, via)?;
    }
    'pads: for pad in board.pads() {
        add_pad(alloc, out, pad)?;
    }
    Ok(())
}

/// Adds the lines of a board's zones, rule areas and edges.
fn add_outlines(alloc: Global, out: &mut Vec<u8>, board: &Board) -> Result<(), Memory> {
    'zones: for zone in board.zones() {
        add_zone(alloc, out, zone)?;
    }
    'areas: for area in board.areas() {
        add_area(alloc, out, area)?;
    }
    'edges: for edge in board.edges() {
        add_edge(alloc, out, edge)?;
    }
    Ok(())
}

/// Boards and names are sent to other threads and shared with them: no clause says so, and that this compiles shows it.
fn is_send_and_sync<T: Send + Sync>(_: &T) {}

/// Adds what a text is: its fault, the first offence of its board, or the board.
fn add_verdict(
    alloc: Global,
    out: &mut Vec<u8>,
    verdict: &Verdict,
    stamps: &[u8],
) -> Result<(), Memory> {
    match verdict {
        Verdict::NoText(fault) => {
            let text = format!(in alloc; "no text: byte {} {:?}\n", fault.at, fault.kind)?;
            add(out, text.as_bytes())
        }
        Verdict::Refused(offence) => {
            let text = format!(in alloc;
                "line {} byte {}: {:?}\n",
                offence.line, offence.at, offence.kind
            )?;
            add(out, text.as_bytes())
        }
        Verdict::Read(board) => {
            is_send_and_sync::<Board>(board);
            add_counts(alloc, out, board)?;
            add_copper(alloc, out, board)?;
            add_outlines(alloc, out, board)?;
            add_stamps(alloc, out, stamps, board)
        }
    }
}

/// Adds the lines of a case.
fn add_case(alloc: Global, out: &mut Vec<u8>, case: &Case<'_>) -> Result<(), Memory> {
    let title = title_text(case.title);
    add(out, title)?;
    add(out, b": ")?;
    let text = full_text(alloc, case.board)?;
    let verdict = verdict_on(alloc, &text)?;
    add_verdict(alloc, out, &verdict, asked(title))
}

/// What is said of the boards of a file. Refuses for want of memory alone.
pub fn table(alloc: Global, boards: &[u8]) -> Result<Vec<u8>, Memory> {
    let cases = cases(alloc, boards)?;
    let mut out = Vec::new(alloc);
    'cases: for case in &cases {
        add_case(alloc, &mut out, case)?;
    }
    Ok(out)
}
