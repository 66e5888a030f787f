// Laws of trees and faults, for the layers above. Each is the contract of a function that does nothing.
ghost use Rattle.std.specs.Prelude.{◌≡◌, ℕ, List, ◌<◌, ◌+◌, ◌-◌, length, take, slice_get, Some};
ghost use Rattle.sexpr_text.specs.Grammar.{Forest, Spelt};
ghost use Rattle.sexpr_text.specs.Items.{Item, children_of};
ghost use Rattle.sexpr_text.specs.Flat.{Shown, IsNode};
ghost use Rattle.sexpr_text.specs.Trees.{IsTreeAt, IsTreeOf, IsSpeltAt, AreInOrder};
ghost use Rattle.sexpr_text.specs.Parts.{item_at};
ghost use Rattle.sexpr_text.specs.Faults.{IsFault, IsUtf8Front};
ghost use Rattle.sexpr_text.specs.declared.error.TextKind.{TextKind};
ghost use Rattle.sexpr_text.specs.declared.NodeKind.TheVariants as kinds;
ghost use Rattle.sexpr_text.specs.declared.error.TextKind.TheVariants.{BadUtf8};

/// A text spells one tree.
pub fn one_tree()
    ensures { (bytes : List ℕ) (tree other : Forest) → Spelt bytes tree → Spelt bytes other → tree ≡ other }
{}

/// A text has at most one fault, and none where it spells a tree.
pub fn one_fault()
    ensures one { (bytes : List ℕ) (at other : ℕ) (kind last : TextKind) → IsFault bytes at kind → IsFault bytes other last → (at ≡ other) × (kind ≡ last) }
    ensures none { (bytes : List ℕ) (tree : Forest) (at : ℕ) (kind : TextKind) → Spelt bytes tree → IsFault bytes at kind → ⊥ }
{}

/// The byte of a `BadUtf8` can't continue the UTF-8 before it.
pub fn bad_utf8()
    ensures { (bytes : List ℕ) (at : ℕ) → IsFault bytes at BadUtf8 → IsUtf8Front (take (at + 1) bytes) → ⊥ }
{}

/// The nodes of a text have one root.
pub fn one_root()
    ensures { (bytes : List ℕ) (nodes : List Shown) (root other : Item) → IsTreeAt bytes nodes root → IsTreeAt bytes nodes other → root ≡ other }
{}

/// The root is the last node.
pub fn root_is_last()
    ensures { (bytes : List ℕ) (nodes : List Shown) (root : Item) → IsTreeAt bytes nodes root → IsNode nodes (length nodes - 1) root }
{}

/// The number of an item's node is below the number of nodes.
pub fn node_is_below()
    ensures { (nodes : List Shown) (id : ℕ) (item : Item) → IsNode nodes id item → id < length nodes }
{}

/// A node is one item.
pub fn one_item()
    ensures { (nodes : List Shown) (id : ℕ) (item other : Item) → IsNode nodes id item → IsNode nodes id other → item ≡ other }
{}

/// Each node of a text is some item.
pub fn each_node_is_an_item()
    ensures { (bytes : List ℕ) (nodes : List Shown) (id : ℕ) → IsTreeOf bytes nodes → id < length nodes → (item : Item) × IsNode nodes id item }
{}

/// The bytes of each item spell it, and lie within the text.
pub fn items_of_nodes()
    ensures { (bytes : List ℕ) (nodes : List Shown) (id : ℕ) (item : Item) → IsTreeOf bytes nodes → IsNode nodes id item → IsSpeltAt bytes item }
{}

/// The children of a list lie inside it, in order.
pub fn children_in_order()
    ensures { (bytes : List ℕ) (item : Item) → item.kind ≡ kinds.List → IsSpeltAt bytes item → AreInOrder (item.from + 1) (item.to - 1) (children_of item) }
{}

/// The item that is built from the nodes of a text is the one that the node is, and each node is one.
pub fn item_law()
    ensures same { (nodes : List Shown) (id : ℕ) (item : Item) → IsNode nodes id item → item_at nodes id ≡ item }
    ensures each { (bytes : List ℕ) (nodes : List Shown) (id : ℕ) → IsTreeOf bytes nodes → id < length nodes → IsNode nodes id (item_at nodes id) }
{}
