//! That a board is told by the contents of its text, whatever the places, and that boards which are the same but for places
//! have the same fills. The old fills of zones don't count: a board is the same before and after it is filled.
//! The crates above use the definitions of `specs/` and the laws that the functions here state; nothing here runs.
#![tactic(auto)]

ghost use Rattle.same_boards.specs.Laws.{SameBoardLaw, SameAcceptedLaw, SameItemsLaw, SoundItemsLaw, FollowLaw, CarryLaw, SameRanksLaw, SameFillsLaw};

/// Texts with the same contents have boards that are the same but for places, and the one is accepted where the other is.
pub fn same_board_law()
    ensures board { SameBoardLaw }
    ensures accepted { SameAcceptedLaw }
{}

/// The same of any items that have the same contents one by one, on boards with the same layers and nets.
pub fn same_items_law()
    ensures board { SameItemsLaw }
    ensures sound { SoundItemsLaw }
{}

/// A task that no edit touched is made as before where the tasks that reach it have the fills that they had; and what is made
/// of the same centres and spokes is the same fill.
pub fn follow_law()
    ensures made { FollowLaw }
    ensures fill { CarryLaw }
{}

/// Boards that are the same but for places have the same tasks in rank order, and the same fills.
pub fn same_fills_law()
    ensures ranks { SameRanksLaw }
    ensures fills { SameFillsLaw }
{}
