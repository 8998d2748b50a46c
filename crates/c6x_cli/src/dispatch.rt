ghost use Rattle.std.specs.Prelude.{◌≡◌, ◌⊎◌, ℕ, All, IfOk, List, Ok, Option, Some, map};
ghost use Rattle.c6x_spec.specs.Files.{Files};
ghost use Rattle.c6x_cli.specs.Generating.{StopsForRoomAlone};
ghost use Rattle.c6x_cli.specs.Meaning.{CanCommit, HasPolicy, asks, is_store, outcome_of, steps_of};
ghost use Rattle.c6x_cli.specs.Relocating.{Relocates};
ghost use Rattle.c6x_cli.specs.Serving.{EndsUsage, served};
ghost use Rattle.c6x_cli.specs.LinkedLoads.{HoldsBytes, LinkedLoads};
ghost use Rattle.c6x_cli.specs.Linking.{linking_steps};
ghost use Rattle.c6x_cli_run.specs.Exits.{Commits, Completes, Exits, LacksMemory, NoFault};
ghost use Rattle.c6x_cli_steps.specs.Policies.{KeepsPolicies};
ghost use Rattle.c6x_cli_run.specs.Statuses.{Keeps, Performs, Shows};
ghost use Rattle.c6x_cli_steps.specs.Stores.{KeepsWriteFaults};
ghost use Rattle.c6x_cli_steps.specs.World.{world};
ghost use Rattle.c6x_cli_words.specs.Requests.{HasSmallNumber, IsReading, is_storing, kind_asked};

use crate::commit::commit;
use crate::gen_laws::generated_lacks_room_alone;
use crate::prepare::prepare;
use crate::prepared::Prepared;
use crate::serving::serve;
use c6x_base::Name;
use c6x_board::Board;
use c6x_cli_steps::{Cause, CommitError, PrepareError, report_error, report_write_fault};
use c6x_cli_words::{Request, parse_words};
use c6x_ports::{Policy, Shelf, Sink};
use std::alloc::{AllocError, Global};

/// Does what the words ask for, over a shelf of files, an output, an error output, a board and policies, and gives the exit
/// status.
///
/// `as IN OUT` assembles the text IN and stores its object file as OUT; `ld PLAN OUT` links the objects of the link
/// plan PLAN and stores the module as OUT; `dis IN` lists the code of the ELF file IN, and `show IN` tells what stands
/// in it; `map PLAN` lays the plan's processes out on the board and lists where everything stands and what the tables
/// hold; `run PLAN` also runs them to their ends, in turns of the first policy of the kind that `--policy` names, which
/// begins with the number of `--seed`, and tells how each ended, after how many cycles and with which output; `gen
/// NUMBER` does so with what the number generates, under the first policy of kind Round, and tells the sums. Statuses:
/// 0 where all was done, 2 where the words have no reading or no policy is of the kind, 3 where a file is missing, 4
/// where a rule is broken, 5 where a file could not be read, 6 where a sink, or the shelf in `as` and `ld`, could not
/// write, and 7 where memory ran out. For each status but 0 one line is put on the error output.
pub fn command<S: Shelf, O: Sink, E: Sink>(
    alloc: Global,
    words: Vec<Name>,
    shelf: &mut S,
    out: &mut O,
    err: &mut E,
    board: &mut Board,
    policies: &mut Vec<Box<dyn Policy>>,
) -> u8
    // On told files a command ends as its words, the files and the board say, or stopped by a device or for want of memory.
    ensures exits { (read : Option Request) → IsReading words.items read → (told : Files) → (S.seen shelf.old).files ≡ Some told
        → Exits (steps_of (served read (map chooser policies.old.items)) told board.old) result
        (world (S.seen shelf.old) (O.seen out.old) (E.seen err.old) board.old (map chooser policies.old.items))
        (world (S.seen shelf.new) (O.seen out.new) (E.seen err.new) board.new (map chooser policies.new.items)) }

    // Where no device fails, it ends exactly so, or for want of memory.
    ensures completes { (read : Option Request) → IsReading words.items read → (told : Files) → (S.seen shelf.old).files ≡ Some told
        → NoFault
        (world (S.seen shelf.old) (O.seen out.old) (E.seen err.old) board.old (map chooser policies.old.items))
        (world (S.seen shelf.new) (O.seen out.new) (E.seen err.new) board.new (map chooser policies.new.items))
        → Completes (steps_of (served read (map chooser policies.old.items)) told board.old) result
        (world (S.seen shelf.old) (O.seen out.old) (E.seen err.old) board.old (map chooser policies.old.items))
        (world (S.seen shelf.new) (O.seen out.new) (E.seen err.new) board.new (map chooser policies.new.items)) }

    // On any devices: what each status shows of them and of the policies, when it is 2, and what the command keeps.
    ensures shows { (read : Option Request) → IsReading words.items read
        → Shows result (is_storing (served read (map chooser policies.old.items)))
        (world (S.seen shelf.old) (O.seen out.old) (E.seen err.old) board.old (map chooser policies.old.items))
        (world (S.seen shelf.new) (O.seen out.new) (E.seen err.new) board.new (map chooser policies.new.items)) }
    ensures usage { (read : Option Request) → IsReading words.items read
        → EndsUsage result (served read (map chooser policies.old.items)) }
    ensures keeps { (read : Option Request) → IsReading words.items read
        → Keeps (is_storing (served read (map chooser policies.old.items)))
        (world (S.seen shelf.old) (O.seen out.old) (E.seen err.old) board.old (map chooser policies.old.items))
        (world (S.seen shelf.new) (O.seen out.new) (E.seen err.new) board.new (map chooser policies.new.items)) }
    ensures policies { (read : Option Request) → IsReading words.items read
        → KeepsPolicies result (kind_asked (served read (map chooser policies.old.items))) (map chooser policies.old.items) (map chooser policies.new.items) }

    // The bytes that `ld` comes to are read as the module of the link, but for the rules L9 and L10 where the link breaks them.
    ensures loads { (told : Files) (plan bytes : List ℕ) → All HoldsBytes told
        → (linking_steps told plan).result ≡ Ok bytes → LinkedLoads told plan bytes }

    // After status 0 of `map` and `run`, the entries of each link of which a module's file has the bytes hold their values
    // in every process that uses the module: on the board for `map`, for `run` as the processes start.
    ensures relocates { (read : Option Request) → IsReading words.items read
        → (told : Files) → (S.seen shelf.old).files ≡ Some told → result ≡ 0
        → Relocates (served read (map chooser policies.old.items)) told board.old board.new }

    // No number that `gen` takes breaks a rule: where it stops, the board has too little room.
    ensures generates { (told : Files) → StopsForRoomAlone told board.old }
{
    generated_lacks_room_alone();
    let _ = board.len();
    match request_of(alloc, words, policies) {
        Ok(Some(request)) => perform(alloc, request, shelf, out, err, board, policies),
        Ok(None) => report_error(err, PrepareError::Because(Cause::Usage)),
        Err(_) => report_error(err, PrepareError::Memory),
    }
}

/// What the words ask for, where the policy that it asks for is there.
fn request_of(
    alloc: Global,
    words: Vec<Name>,
    policies: &Vec<Box<dyn Policy>>,
) -> Result<Option<Request>, AllocError>
    ensures served { (read : Option Request) → IsReading words.items read → IfOk result (λ request. request ≡ served read (map chooser policies.now.items)) }
    ensures small { IfOk result HasSmallNumber }
    ensures there { IfOk result (λ request. HasPolicy (kind_asked request) (map chooser policies.now.items)) }
{
    let read = parse_words(alloc, words)?;
    match read {
        Some(request) => Ok(serve(request, policies)),
        None => Ok(None),
    }
}

/// Does what is asked for, and gives the status.
fn perform<S: Shelf, O: Sink, E: Sink>(
    alloc: Global,
    request: Request,
    shelf: &mut S,
    out: &mut O,
    err: &mut E,
    board: &mut Board,
    policies: &mut Vec<Box<dyn Policy>>,
) -> u8
    requires small { HasSmallNumber (Some request) }
    requires there { HasPolicy (kind_asked (Some request)) (map chooser policies.old.items) }
    ensures { Performs (λ told. steps_of (Some request) told board.old) (is_storing (Some request)) (kind_asked (Some request)) result
        (world (S.seen shelf.old) (O.seen out.old) (E.seen err.old) board.old (map chooser policies.old.items))
        (world (S.seen shelf.new) (O.seen out.new) (E.seen err.new) board.new (map chooser policies.new.items)) }
{
    match prepare(alloc, request, shelf, board) {
        Ok(prepared) => finish(alloc, prepared, shelf, out, err, board, policies),
        Err(stop) => report_error(err, stop),
    }
}

/// Carries a command out, and gives the status.
fn finish<S: Shelf, O: Sink, E: Sink>(
    alloc: Global,
    prepared: Prepared,
    shelf: &mut S,
    out: &mut O,
    err: &mut E,
    board: &mut Board,
    policies: &mut Vec<Box<dyn Policy>>,
) -> u8
    requires ready { CanCommit board.old prepared }
    requires served { HasPolicy (asks prepared) (map chooser policies.old.items) }
    ensures ends { Commits (outcome_of prepared board.old) result
        (world (S.seen shelf.old) (O.seen out.old) (E.seen err.old) board.old (map chooser policies.old.items))
        (world (S.seen shelf.new) (O.seen out.new) (E.seen err.new) board.new (map chooser policies.new.items))
        ⊎ LacksMemory result
        (world (S.seen shelf.old) (O.seen out.old) (E.seen err.old) board.old (map chooser policies.old.items))
        (world (S.seen shelf.new) (O.seen out.new) (E.seen err.new) board.new (map chooser policies.new.items)) }
    ensures write_faults { KeepsWriteFaults (is_store prepared) (S.seen shelf.old) (S.seen shelf.new) }
{
    match commit(alloc, prepared, shelf, out, board, policies) {
        Ok(()) => 0,
        Err(CommitError::WriteFault) => report_write_fault(err),
        Err(CommitError::Memory) => report_error(err, PrepareError::Memory),
    }
}
