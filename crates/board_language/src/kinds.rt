// The kinds of offences, tried one after another.
ghost use Rattle.std.specs.Prelude.{◌≡◌};
ghost use Rattle.board_language.specs.Offences.{first_kind, number_offence, when};

use crate::OffenceKind;
use grid_num::NumFault;

/// The kind, where the test holds.
pub fn when(kind: OffenceKind, test: bool) -> Option<OffenceKind>
    ensures { result ≡ when kind test }
{
    if test { Some(kind) } else { None }
}

/// A number that can't be read.
pub fn number_kind(fault: Option<NumFault>) -> Option<OffenceKind>
    ensures { result ≡ number_offence fault }
{
    match fault {
        Some(fault) => Some(OffenceKind::Number(fault)),
        None => None,
    }
}

/// The first of the kinds, if there is one.
pub fn first_kind(kinds: &[Option<OffenceKind>]) -> Option<OffenceKind>
    ensures { result ≡ first_kind kinds.now }
{
    'each: for kind in kinds {
        if kind.is_some() {
            return *kind;
        }
    }
    None
}
