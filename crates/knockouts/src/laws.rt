//! What the answers mean to the layer above. Nothing here runs.
ghost use Rattle.knockouts.specs.Clear.{ClearByBarsLaw, NeedRangeLaw};
ghost use Rattle.knockouts.specs.Gaps.{GapsLaw, OneGapLaw};
ghost use Rattle.knockouts.specs.Reaching.{ReachByRankLaw};
ghost use Rattle.knockouts.specs.Rows.{NeedsRow};

/// A task reaches another by their ranks exactly where it reaches it as a task.
pub fn ranks_law()
    ensures { ReachByRankLaw }
{}

/// The gaps that stand last among the needs are a quarter as many as the spokes, pad by pad: one round each pad that is joined
/// by spokes.
pub fn gaps_law()
    ensures spokes { GapsLaw }
    ensures one { OneGapLaw }
{}

/// An octagon in the frame of the task's outline is clear exactly where it keeps the need of each entry before the gaps,
/// over the fills of the tasks that reach it.
pub fn clear_law()
    ensures { ClearByBarsLaw }
{}

/// Each entry of the needs is an octagon within 2^31 units of 0, to be kept away from by 1 unit to 2^31.
pub fn range_law()
    ensures { NeedRangeLaw }
{}

/// What the needs are, in numbers, of a task below one fill.
pub fn rows()
    ensures { NeedsRow }
{}
