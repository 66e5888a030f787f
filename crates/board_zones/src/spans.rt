// Where the lists of a zone stand that are replaced, and where its rings go.
ghost use Rattle.std.specs.Prelude.{◌≡◌, filter, map, IfOk};
ghost use Rattle.board_text.specs.Lists.{lists_of};
ghost use Rattle.board_text.specs.Items.{span_of, tail_of};
ghost use Rattle.board_text.specs.Fields.{list_of, list_in};
ghost use Rattle.board_language.specs.Zones.{is_fill, span_or_none, spans_of};

use board_language::{FillSpans, ZoneSpans};
use board_text::{Part, solid_end};
use grid_num::Memory;
use sexpr_text::Span;
use std::alloc::Global;

/// The place behind the last byte before a list's closing parenthesis that isn't white space.
pub fn tail_of(list: &Part<'_>) -> usize
    ensures { result ≡ tail_of list.now.bytes list.now.item }
{
    let to = list.span().to;
    solid_end(list.bytes(), to.saturating_sub(1))
}

fn span_in(zone: &Part<'_>, name: &[u8]) -> Option<Span>
    ensures { result ≡ span_or_none (list_of zone.now.bytes name.now zone.now.item) }
{
    match zone.list(name) {
        Some(list) => Some(list.span()),
        None => None,
    }
}

fn span_inside(zone: &Part<'_>, outer: &[u8], name: &[u8]) -> Option<Span>
    ensures { result ≡ span_or_none (list_in zone.now.bytes outer.now name.now zone.now.item) }
{
    match zone.list_in(outer, name) {
        Some(list) => Some(list.span()),
        None => None,
    }
}

/// Whether a list is a fill that was written before.
fn is_fill(list: &Part<'_>) -> bool
    ensures { result ≡ is_fill list.now.bytes list.now.item }
{
    list.is_headed(b"filled_polygon") || list.is_headed(b"fill_segments")
}

fn fills_of(alloc: Global, zone: &Part<'_>) -> Result<Vec<Span>, Memory>
    ensures { IfOk result (λ v. v.items ≡ map span_of (filter (is_fill zone.now.bytes) (lists_of zone.now.item))) }
{
    let mut spans = Vec::new(alloc);
    'each: for place in 0..zone.len() {
        let child = zone.child(place);
        if child.is_list() && is_fill(&child) {
            spans.push(child.span())?;
        }
    }
    Ok(spans)
}

/// Where the lists of a zone stand that an edit or a fill replaces, and where its rings go.
///
/// # Errors
///
/// Want of memory.
#[tactic(auto, unfolding(board_language::specs::Zones::spans_of))]
pub fn spans_of(alloc: Global, zone: &Part<'_>) -> Result<ZoneSpans, Memory>
    ensures { IfOk result (λ s. s ≡ spans_of zone.now.bytes zone.now.item) }
{
    let fills = fills_of(alloc, zone)?;
    Ok(ZoneSpans {
        priority: span_in(zone, b"priority"),
        connect: span_in(zone, b"connect_pads"),
        clearance: span_inside(zone, b"connect_pads", b"clearance"),
        tail: tail_of(zone),
        fills: FillSpans::of(fills),
    })
}
