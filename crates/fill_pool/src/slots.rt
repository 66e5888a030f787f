// How the tasks stand, one by one, and which of them is the next.
ghost use Rattle.std.specs.Prelude.{◌≡◌, ◌↔◌, ℕ, ◌<◌, ◌^◌, List, length, get_or, map, IfSome, IfNone, IsTrue, false};
ghost use Rattle.std.specs.List.{All};
ghost use Rattle.pool_rules.specs.declared.Slot.TheVariants.{Waiting, Held, Finished, Returned};
ghost use Rattle.fill_pool.specs.Inner.Slots.{IsReadyRow};

use pool_rules::Slot;

/// Whether the task is finished; what is past the last task is.
fn is_finished(slots: &[Slot], i: usize) -> bool
    ensures { IsTrue result ↔ (get_or slots.now i Finished ≡ Finished) }
{
    if i >= slots.len() {
        return true;
    }
    match slots[i] {
        Slot::Finished => true,
        _ => false,
    }
}

/// Whether the task waits.
fn is_waiting(slots: &[Slot], i: usize) -> bool
    ensures { IsTrue result ↔ (get_or slots.now i Finished ≡ Waiting) }
{
    if i >= slots.len() {
        return false;
    }
    match slots[i] {
        Slot::Waiting => true,
        _ => false,
    }
}

/// Whether the worker holds the task.
pub fn is_held_by(slots: &[Slot], i: usize, worker: u32) -> bool
    ensures { IsTrue result ↔ (get_or slots.now i Finished ≡ Held worker) }
{
    if i >= slots.len() {
        return false;
    }
    match slots[i] {
        Slot::Held { worker: by } => by == worker,
        _ => false,
    }
}

/// Whether any worker holds the task.
fn is_held(slots: &[Slot], i: usize) -> bool
    ensures held { IsTrue result → ((v : ℕ) × (get_or slots.now i Finished ≡ Held v)) }
    ensures free { (result ≡ false) → (v : ℕ) → get_or slots.now i Finished ≡ Held v → ⊥ }
{
    if i >= slots.len() {
        return false;
    }
    match slots[i] {
        Slot::Held { worker: _ } => true,
        _ => false,
    }
}

/// Whether all these tasks are finished.
fn all_finished(slots: &[Slot], row: &[u32]) -> bool
    ensures { IsTrue result ↔ All (λ (j : ℕ). get_or slots.now j Finished ≡ Finished) row.now }
{
    'each: for j in row {
        if !is_finished(slots, *j as usize) {
            return false;
        }
    }
    true
}

/// Whether the task waits and those of its row are finished.
fn is_ready(slots: &[Slot], table: &[Vec<u32>], i: usize) -> bool
    requires { length table.now ≡ length slots.now }
    ensures { IsTrue result ↔ IsReadyRow (map (λ v. v.items) table.now) slots.now i }
{
    if !is_waiting(slots, i) {
        return false;
    }
    all_finished(slots, table[i].as_slice())
}

/// The first task that is ready.
pub fn first_ready(slots: &[Slot], table: &[Vec<u32>]) -> Option<u32>
    requires same { length table.now ≡ length slots.now }
    requires few { length slots.now < 2 ^ 32 }
    ensures ready { IfSome result (λ i. IsReadyRow (map (λ v. v.items) table.now) slots.now i) }
    ensures first { IfSome result (λ i. (j : ℕ) → j < i
        → IsReadyRow (map (λ v. v.items) table.now) slots.now j → ⊥) }
    ensures none { IfNone result ((j : ℕ)
        → IsReadyRow (map (λ v. v.items) table.now) slots.now j → ⊥) }
{
    'each: for i in 0..slots.len() {
        if is_ready(slots, table, i) {
            return Some(i as u32);
        }
    }
    None
}

/// Whether every task is finished.
pub fn all_done(slots: &[Slot]) -> bool
    ensures { IsTrue result
        ↔ ((i : ℕ) → i < length slots.now → get_or slots.now i Finished ≡ Finished) }
{
    'each: for i in 0..slots.len() {
        if !is_finished(slots, i) {
            return false;
        }
    }
    true
}

/// Whether no task is held.
pub fn none_held(slots: &[Slot]) -> bool
    ensures { IsTrue result ↔ ((i v : ℕ) → get_or slots.now i Finished ≡ Held v → ⊥) }
{
    'each: for i in 0..slots.len() {
        if is_held(slots, i) {
            return false;
        }
    }
    true
}
