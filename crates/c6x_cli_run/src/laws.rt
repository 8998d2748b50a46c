//! A fact about the definitions of boards, the contract of a function that does nothing.

ghost use Rattle.c6x_cli_run.specs.Laws.{BoardIsOfAll};

/// What the processes stand for, and what none of them may write, is the whole board.
pub fn board_is_of_all()
    ensures { BoardIsOfAll }
{}
