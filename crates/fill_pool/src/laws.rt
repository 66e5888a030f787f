// What holds of every lawful run over a board's tasks.
ghost use Rattle.fill_pool.specs.Laws.{BoardRunsLaw, FollowsLaw, AboveLaw, OneAboveLaw, TicketFillLaw};

use fill_rules::ranking_law;

/// In every lawful run over a board's tasks, of any length and with any workers, a task is finished at most once, by a worker that
/// took it, after all tasks that reach it; and it goes on while something isn't finished, nothing is held and nothing was
/// given back.
pub fn runs_law()
    ensures { BoardRunsLaw }
{}

/// A lawful run goes on by taking the next task, or by what the holder of a task does with it, and by nothing else.
pub fn follows_law()
    ensures { FollowsLaw }
{}

/// While a task is held, every task that reaches it is finished.
pub fn above_law()
    ensures { AboveLaw }
{}

/// What a task is filled on is one list of fills, whatever run of the pool led to it and whichever workers.
pub fn one_above_law()
    ensures { OneAboveLaw }
{}

/// The fills that the pool lists above a ticket's task are those that the fill of the task is made on, and what is then made is the
/// fill that the pool asks for.
pub fn ticket_law()
    ensures { TicketFillLaw }
{
    ranking_law();
}
