// The promises about lists of actual calls of step: what one call does is in specs/Calls.antt, what links calls to a list in
// specs/Lists.antt. Nothing here runs a join; each law call names a statement that is proved.
#![tactic(auto)]

ghost use Rattle.runs.specs.Promised.{RunsHold, RunsGoOn, RunsStay, RunsAgree, RunsMirror, RunsJoin};

use cells::Cell;

// Of every list of calls all that is promised holds.
pub fn lists_hold<C: Cell>()
    ensures { RunsHold C }
{}

// A call that does what one call must do carries every list on.
pub fn lists_go_on<C: Cell>()
    ensures { RunsGoOn C }
{}

// A refused call, at any kind of cell, leaves every list where it was.
pub fn lists_stay<C: Cell, D: Cell>()
    ensures { RunsStay C D }
{}

// No answer depends on the cells that are free.
pub fn lists_agree<C: Cell>()
    ensures { RunsAgree C }
{}

// Two finished lists of calls, one with the other's sides exchanged, deliver the same rows equally often.
pub fn lists_mirror<C: Cell>()
    ensures { RunsMirror C }
{}

// Under inner and outer types a finished list of calls delivers the joined table.
pub fn lists_join<C: Cell>()
    ensures { RunsJoin C }
{}
