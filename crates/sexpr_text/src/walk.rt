// Walks to the fault of a text.
ghost use Rattle.std.specs.Prelude.{ℕ, List, MatchOption};
ghost use Rattle.sexpr_text.specs.Grammar.{Forest, Spelt};
ghost use Rattle.sexpr_text.specs.Faults.{IsFault};

use crate::TextFault;
use crate::cut::{Cutting, follow_cut, is_bad};
use crate::stand::{Stand, follow, is_off, kind_at, kind_at_end};

/// The fault of a text, or nothing where it spells a tree. It goes on as long as the bytes begin some text.
pub fn walk(bytes: &[u8]) -> Option<TextFault>
    ensures { MatchOption result ((tree : Forest) × Spelt bytes.now tree) (λ fault. IsFault bytes.now fault.at fault.kind) }
{
    let mut at = 0;
    let mut stand = Stand::Start;
    let mut cut = Cutting::Whole;
    'each: while at < bytes.len() {
        let byte = bytes[at];
        let next = follow(stand, byte);
        let later = follow_cut(cut, byte);
        if is_off(next) || is_bad(later) {
            let kind = kind_at(stand, byte);
            return Some(TextFault { at, kind });
        }
        stand = next;
        cut = later;
        at += 1;
    }
    let Some(kind) = kind_at_end(stand) else {
        return None;
    };
    Some(TextFault { at, kind })
}

/// The fault of a text that spells no tree.
pub fn fault_of(bytes: &[u8]) -> TextFault
    requires { (tree : Forest) → Spelt bytes.now tree → ⊥ }
    ensures { IsFault bytes.now result.at result.kind }
{
    match walk(bytes) {
        Some(fault) => fault,
        None => unreachable!(),
    }
}
