// What a zone does about a pad.
ghost use Rattle.std.specs.Prelude.{◌≡◌, ◌<◌, ◌&&◌};
ghost use Rattle.fill_rules.specs.Tasks.{settings_of};
ghost use Rattle.fill_rules.specs.Needs.{role, role_by, role_of_net, is_on, is_barred};
ghost use Rattle.fill_rules.specs.Reliefs.{is_thermal};
ghost use Rattle.fill_rules.specs.Anchors.{is_joined};
ghost use Rattle.knockouts.specs.Treatments.{treatment_of, is_kept_off, is_by_spokes, is_all_round};

use crate::lengths::is_foreign;
use crate::rank::has_layer;
use board_language::{Join, Pad, PadKind, Zone};

/// What a zone does about a pad.
#[derive(Clone, Copy, PartialEq, Eq, Debug)]
pub enum Treatment {
    /// It keeps off: the pad is of another net, a bare hole, or not to be joined.
    KeptOff,
    /// It joins the pad by four spokes across a gap.
    BySpokes,
    /// It joins the pad by copper all round.
    AllRound,
}

// How a pad of the zone's net is joined.
fn by_join(kind: PadKind, join: Join) -> Treatment
    ensures { result ≡ treatment_of (role_by kind join) }
{
    match join {
        Join::Thermal => Treatment::BySpokes,
        Join::Solid => Treatment::AllRound,
        Join::Apart => Treatment::KeptOff,
        Join::PlatedThermal => match kind {
            PadKind::Plated => Treatment::BySpokes,
            PadKind::Surface => Treatment::AllRound,
            PadKind::Hole => Treatment::KeptOff,
        },
    }
}

// What the zone does about the pad's copper.
fn by_net(zone: &Zone, pad: &Pad) -> Treatment
    ensures { result ≡ treatment_of (role_of_net (settings_of zone.now) pad.now) }
{
    if is_foreign(zone.net, pad.net) {
        Treatment::KeptOff
    } else {
        by_join(pad.kind, pad.join.unwrap_or(zone.join))
    }
}

// What the zone does about the pad, on a layer where the pad has copper or is a hole.
fn treated(zone: &Zone, pad: &Pad) -> Treatment
    ensures { result ≡ treatment_of (role (settings_of zone.now) pad.now) }
{
    match pad.kind {
        PadKind::Plated => by_net(zone, pad),
        PadKind::Surface => by_net(zone, pad),
        PadKind::Hole => Treatment::KeptOff,
    }
}

// Whether the pad has copper on the layer, or is a bare hole.
fn is_on(pad: &Pad, layer: u8) -> bool
    requires { layer < 32 }
    ensures { result ≡ is_on layer pad.now }
{
    match pad.kind {
        PadKind::Plated => has_layer(pad.layers, layer),
        PadKind::Surface => has_layer(pad.layers, layer),
        PadKind::Hole => true,
    }
}

fn is_kept_off(treatment: Treatment) -> bool
    ensures { result ≡ is_kept_off treatment }
{
    match treatment {
        Treatment::KeptOff => true,
        Treatment::BySpokes => false,
        Treatment::AllRound => false,
    }
}

fn is_by_spokes(treatment: Treatment) -> bool
    ensures { result ≡ is_by_spokes treatment }
{
    match treatment {
        Treatment::BySpokes => true,
        Treatment::KeptOff => false,
        Treatment::AllRound => false,
    }
}

fn is_all_round(treatment: Treatment) -> bool
    ensures { result ≡ is_all_round treatment }
{
    match treatment {
        Treatment::AllRound => true,
        Treatment::KeptOff => false,
        Treatment::BySpokes => false,
    }
}

/// Whether copper of the zone on the layer keeps off the pad.
#[tactic(auto, using(crate::proofs::Roles::kept_off))]
pub fn is_barred(zone: &Zone, layer: u8, pad: &Pad) -> bool
    requires { layer < 32 }
    ensures { result ≡ (is_on layer pad.now && is_barred (role (settings_of zone.now) pad.now)) }
{
    is_on(pad, layer) && is_kept_off(treated(zone, pad))
}

/// Whether the zone joins the pad on the layer by spokes.
#[tactic(auto, using(crate::proofs::Roles::by_spokes))]
pub fn is_thermal(zone: &Zone, layer: u8, pad: &Pad) -> bool
    requires { layer < 32 }
    ensures { result ≡ is_thermal (settings_of zone.now) layer pad.now }
{
    is_on(pad, layer) && is_by_spokes(treated(zone, pad))
}

/// Whether the zone joins the pad on the layer by copper all round.
#[tactic(auto, using(crate::proofs::Roles::all_round))]
pub fn is_solid(zone: &Zone, layer: u8, pad: &Pad) -> bool
    requires { layer < 32 }
    ensures { result ≡ (is_on layer pad.now && is_joined (role (settings_of zone.now) pad.now)) }
{
    is_on(pad, layer) && is_all_round(treated(zone, pad))
}
