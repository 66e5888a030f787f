// What offends in the board's `layers`.
ghost use Rattle.std.specs.Prelude.{◌≡◌, ◌∷◌, [], nat_lt, is_none, length, map, filter, filter_map, IfOk};
ghost use Rattle.std.specs.List.{list_any};
ghost use Rattle.board_text.specs.Numbers.{first_of};
ghost use Rattle.board_text.specs.Layers.{has_double, is_copper, layer_fault, name_of_layer};
ghost use Rattle.board_language.specs.Offences.{layers_kind};
ghost use Rattle.board_items.specs.Known.{context};

use board_items::{
    Known, copper_among, has_double, lacks_name, layers_fault, layers_in, names_of_layers,
};
use board_language::{OffenceKind, first_kind, number_kind, when};
use board_text::Part;
use grid_num::Memory;
use std::alloc::Global;

/// The first offence of the board's `layers`.
///
/// # Errors
///
/// Want of memory.
pub fn layers_kind(
    alloc: Global,
    known: &Known,
    item: &Part<'_>,
) -> Result<Option<OffenceKind>, Memory>
    ensures { IfOk result (λ k. k ≡ layers_kind (context item.now.bytes known.now) item.now.item) }
{
    let layers = layers_in(alloc, item)?;
    let lacks = lacks_name(alloc, &layers)?;
    let fault = layers_fault(alloc, &layers)?;
    let names = names_of_layers(alloc, &layers)?;
    let double = has_double(alloc, &names)?;
    let copper = copper_among(alloc, &names)?;
    Ok(first_kind(&[
        when(OffenceKind::MissingPart, lacks),
        number_kind(fault),
        when(OffenceKind::DoubleLayer, double),
        when(OffenceKind::TooMany, 32 < copper.len()),
    ]))
}
