//! Labels that spread along links: each of some numbered things gets the least number of its class.
//! The layer above says by `Links` how many things there are and which of them are linked, and uses `labels`.
//! Things are named by their numbers, from 0 on; no number here has a unit.
#![tactic(auto)]

ghost use Rattle.std.specs.Prelude.{◌≡◌, ℕ, ◌<◌, OnOk};
ghost use Rattle.spreading.specs.Labels.{AreThoseLinked};

mod flood;

pub use flood::labels;
use grid_num::Memory;

/// Numbered things, some of which are linked.
pub trait Links {
    /// How many things there are.
    ghost count_of: { Self → ℕ };

    /// Which things are linked, by their numbers.
    ghost are_linked: { Self → ℕ → ℕ → Type 0 };

    /// What has to hold so that it may be asked.
    ghost is_ready: { Self → Type 0 };

    /// How many things there are.
    fn count(&self) -> usize
        ensures { result ≡ count_of self.now };

    /// Replaces what the list holds by the numbers of those that are linked to this one, in any order, maybe some of them more
    /// than once. It may leave out the thing itself.
    ///
    /// # Errors
    ///
    /// Want of memory; then the list holds anything.
    fn linked(&self, k: u32, into: &mut Vec<u32>) -> Result<(), Memory>
        requires ready { is_ready self.now }
        requires there { k < count_of self.now }
        ensures { OnOk result (AreThoseLinked (are_linked self.now) k into.new.items) };
}
