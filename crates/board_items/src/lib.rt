//! What stands in the text of a board that needs no geometry: its layers and nets, lists of layers, points and lengths, the
//! stamps, and what each list is. The layer above uses each reading exactly as `board_text` defines it.
//! Lengths and places are nanometres.
#![tactic(auto)]

mod layer_lists;
mod layers;
mod lists;
mod names;
mod numbers;
mod points;
mod root;
mod seen;
mod sizes;
mod stack;
mod stamps;
mod thing;

pub use layer_lists::{has_copper, has_unknown, layer_set, meant_by, meant_in, no_layers_law};
pub use layers::{is_copper, is_on_copper, is_on_edge, layer_names, name_at};
pub use lists::{has_bad_length, has_bad_size, has_short, is_bad_length, lacks};
pub use names::LayerNames;
pub use numbers::Numbers;
pub use points::{has_other_point, has_short_point, points_fault, points_of};
pub use root::{declared_net, declared_nets, is_unknown_net, known_of, stamp_in, version_of};
pub use sizes::{is_no_length, is_no_size, size_of};
pub use stack::{
    copper_among, copper_names, has_double, is_between, is_layer, lacks_name, layer_fault,
    layers_between, layers_fault, layers_in, name_of_layer, names_of_layers,
};
pub use stamps::{Stamps, stamps_law};
pub use thing::{Own, Thing, thing_in_footprint, thing_on_board};

/// What holds for the whole board: its copper layers in their order, and its nets.
#[derive(Drop)]
pub struct Known {
    pub copper: LayerNames,
    pub nets: Numbers,
}
