//! The laws of the rules of outlines. Nothing here runs.
ghost use Rattle.outline_slab.specs.Faults.{OneFaultLaw, NoFaultLaw};

/// Vertices break at most one rule first: no two faults fit them.
pub fn one_fault()
    ensures { OneFaultLaw }
{}

/// Vertices that break no rule have no fault.
pub fn no_fault()
    ensures { NoFaultLaw }
{}
