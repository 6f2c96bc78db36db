// One call for each promise about lists of steps. They hold for every kind of cell, table, verdict, output list,
// number of probes, source and list of steps, in any order and long past done.
ghost use Rattle.nested_loop.specs.Promises.{NeverMoreOften, ExactlyWhenFinished, WithinCuts, WithinBound, NoticesCome, IsTallied, Mirrors, OfTwoBags, IsJoinedTable};
ghost use Rattle.nested_loop.specs.Worked.{Worked};

use cells::Cell;

// No row comes more often than the nested loop has it.
pub fn never_more_often<C: Cell>()
    ensures { NeverMoreOften C }
{}

// When all probes are done, every row came exactly as often, and each probe's rows in order, the left rest last from the emitter.
pub fn exactly_when_finished<C: Cell>()
    ensures { ExactlyWhenFinished C }
{}

// Each probe's batches are cut into B rows with the remainder last.
pub fn within_cuts<C: Cell>()
    ensures { WithinCuts C }
{}

// A probe is done by its bound of own accepted steps.
pub fn within_bound<C: Cell>()
    ensures { WithinBound C }
{}

// The waits and faults that a probe answers are its source's, in order.
pub fn notices_come<C: Cell>()
    ensures { NoticesCome C }
{}

// The tally's counts are the run's, and what waits has room.
pub fn is_tallied<C: Cell>()
    ensures { IsTallied C }
{}

// Two finished runs, one with the other's sides exchanged, deliver the same rows equally often.
pub fn mirrors<C: Cell>()
    ensures { Mirrors C }
{}

// The nested loop is a function of the two bags of rows.
pub fn of_two_bags<C: Cell>()
    ensures { OfTwoBags C }
{}

// The nested loop's rows are the joined table for inner and outer types.
pub fn is_joined_table<C: Cell>()
    ensures { IsJoinedTable C }
{}

// The worked schedule, by computing.
pub fn meets_worked_schedule()
    ensures { Worked }
{}
