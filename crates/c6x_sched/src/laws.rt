//! Facts about the definitions of turns, each the contract of a function that does nothing.

ghost use Rattle.c6x_sched.specs.Laws.{ReadyAreThoseThatRun, OnePlayOfALength, OneWholePlay, WholePlayIsTold, StateIsLeft};

/// The ready numbers are those of the processes that have not ended.
pub fn ready_are_those_that_run()
    ensures { ReadyAreThoseThatRun }
{}

/// Two plays of as many turns under a policy of a named kind are the same: a shorter play is the beginning of a longer one.
pub fn one_play_of_a_length()
    ensures { OnePlayOfALength }
{}

/// A policy of a named kind has one play up to the end of every process.
pub fn one_whole_play()
    ensures { OneWholePlay }
{}

/// That play is told by the starts and the policy.
pub fn whole_play_is_told()
    ensures { WholePlayIsTold }
{}

/// The state in which every play up to the end of every process leaves a policy of a named kind.
pub fn state_is_left()
    ensures { StateIsLeft }
{}
