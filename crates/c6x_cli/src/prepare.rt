ghost use Rattle.std.specs.Prelude.{◌≡◌, ◌≤◌, true, false, None, Some, IfOk, length};
ghost use Rattle.c6x_cli_words.specs.declared.request.Request.TheVariants.{Assemble as assemble_request, Dis as dis_request, Generate as generate_request, Link as link_request, Map as map_request, Run as run_request, Show as show_request};
ghost use Rattle.c6x_cli.specs.Meaning.{CanCommit, asks, is_store, outcome_of, request_steps};
ghost use Rattle.c6x_cli_words.specs.Requests.{HasSmallNumber, is_storing, kind_asked};
ghost use Rattle.c6x_cli_run.specs.Loading.{loading_steps};
ghost use Rattle.c6x_cli_run.specs.Placing.{CanLoad};
ghost use Rattle.c6x_ports.specs.Shelf.{Shelved};
ghost use Rattle.c6x_ports.specs.declared.kind.Kind.TheVariants.{Round as round_kind};
ghost use Rattle.c6x_cli.specs.Made.{generated_loading};
ghost use Rattle.c6x_cli_steps.specs.Steps.{Decides, Prepares};

use crate::linking::prepare_module;
use crate::object::prepare_object;
use crate::prepared::Prepared;
use crate::preparing::prepare_generated;
use c6x_base::Name;
use c6x_board::Board;
use c6x_cli_run::{Loading, prepare_loading};
use c6x_cli_steps::{PrepareError, fetch_elf};
use c6x_cli_words::Request;
use c6x_ports::{Kind, Shelf};
use std::alloc::Global;

/// Does all that a command decides before anything is written.
pub fn prepare<S: Shelf>(
    alloc: Global,
    request: Request,
    shelf: &mut S,
    board: &Board,
) -> Result<Prepared, PrepareError>
    requires { HasSmallNumber (Some request) }
    ensures prepares { Prepares (λ prepared. outcome_of prepared board.now) (λ told. request_steps request told board.now) (S.seen shelf.old) (S.seen shelf.new) result }
    ensures ready { IfOk result (CanCommit board.now) }
    ensures kind { IfOk result (λ prepared. is_store prepared ≡ is_storing (Some request)) }
    ensures asks { IfOk result (λ prepared. asks prepared ≡ kind_asked (Some request)) }
{
    match request {
        Request::Assemble { input, output } => prepare_assembling(
            alloc, &input, output, shelf, board,
        ),
        Request::Link { plan, output } => prepare_linking(alloc, &plan, output, shelf, board),
        Request::Dis { input } => prepare_dis(alloc, &input, shelf, board),
        Request::Show { input } => prepare_show(alloc, &input, shelf, board),
        Request::Map { plan } => prepare_map(alloc, &plan, shelf, board),
        Request::Run {
            plan,
            policy,
            seed,
            turns,
        } => { prepare_run(alloc, &plan, policy, seed, turns, shelf, board) }
        Request::Generate { number } => prepare_gen(alloc, number, board),
    }
}

/// Does all that `as` decides before it stores.
fn prepare_assembling<S: Shelf>(
    alloc: Global,
    input: &Name,
    output: Name,
    shelf: &mut S,
    board: &Board,
) -> Result<Prepared, PrepareError>
    ensures prepares { Prepares (λ prepared. outcome_of prepared board.now) (λ told. request_steps (assemble_request input.now output) told board.now) (S.seen shelf.old) (S.seen shelf.new) result }
    ensures ready { IfOk result (CanCommit board.now) }
    ensures kind { IfOk result (λ prepared. is_store prepared ≡ true) }
    ensures asks { IfOk result (λ prepared. asks prepared ≡ None) }
{
    let bytes = prepare_object(alloc, shelf, input)?;
    Ok(Prepared::Store(output, bytes))
}

/// Does all that `ld` decides before it stores.
fn prepare_linking<S: Shelf>(
    alloc: Global,
    plan: &Name,
    output: Name,
    shelf: &mut S,
    board: &Board,
) -> Result<Prepared, PrepareError>
    ensures prepares { Prepares (λ prepared. outcome_of prepared board.now) (λ told. request_steps (link_request plan.now output) told board.now) (S.seen shelf.old) (S.seen shelf.new) result }
    ensures ready { IfOk result (CanCommit board.now) }
    ensures kind { IfOk result (λ prepared. is_store prepared ≡ true) }
    ensures asks { IfOk result (λ prepared. asks prepared ≡ None) }
{
    let module = prepare_module(alloc, shelf, plan)?;
    Ok(Prepared::Store(output, module))
}

/// Does all that `dis` decides before anything is written.
fn prepare_dis<S: Shelf>(
    alloc: Global,
    input: &Name,
    shelf: &mut S,
    board: &Board,
) -> Result<Prepared, PrepareError>
    ensures prepares { Prepares (λ prepared. outcome_of prepared board.now) (λ told. request_steps (dis_request input.now) told board.now) (S.seen shelf.old) (S.seen shelf.new) result }
    ensures ready { IfOk result (CanCommit board.now) }
    ensures kind { IfOk result (λ prepared. is_store prepared ≡ false) }
    ensures asks { IfOk result (λ prepared. asks prepared ≡ None) }
{
    let file = fetch_elf(alloc, shelf, input)?;
    Ok(Prepared::Dis(file))
}

/// Does all that `show` decides before anything is written.
fn prepare_show<S: Shelf>(
    alloc: Global,
    input: &Name,
    shelf: &mut S,
    board: &Board,
) -> Result<Prepared, PrepareError>
    ensures prepares { Prepares (λ prepared. outcome_of prepared board.now) (λ told. request_steps (show_request input.now) told board.now) (S.seen shelf.old) (S.seen shelf.new) result }
    ensures ready { IfOk result (CanCommit board.now) }
    ensures kind { IfOk result (λ prepared. is_store prepared ≡ false) }
    ensures asks { IfOk result (λ prepared. asks prepared ≡ None) }
{
    let file = fetch_elf(alloc, shelf, input)?;
    Ok(Prepared::Show(file))
}

/// What a plan comes to on this board.
fn loading_on<S: Shelf>(
    alloc: Global,
    shelf: &mut S,
    plan: &Name,
    board: &Board,
) -> Result<Loading, PrepareError>
    ensures prepares { Prepares (λ loading. loading) (λ told. loading_steps told plan.now board.now.base (length board.now.bytes)) (S.seen shelf.old) (S.seen shelf.new) result }
    ensures loads { IfOk result (CanLoad board.now.base (length board.now.bytes)) }
{
    prepare_loading(alloc, shelf, plan, board.base(), board.len())
}

/// Does all that `map` decides before anything is written.
fn prepare_map<S: Shelf>(
    alloc: Global,
    plan: &Name,
    shelf: &mut S,
    board: &Board,
) -> Result<Prepared, PrepareError>
    ensures prepares { Prepares (λ prepared. outcome_of prepared board.now) (λ told. request_steps (map_request plan.now) told board.now) (S.seen shelf.old) (S.seen shelf.new) result }
    ensures ready { IfOk result (CanCommit board.now) }
    ensures kind { IfOk result (λ prepared. is_store prepared ≡ false) }
    ensures asks { IfOk result (λ prepared. asks prepared ≡ None) }
{
    let loading = loading_on(alloc, shelf, plan, board)?;
    Ok(Prepared::Map(loading))
}

/// Does all that `run` decides before anything is written.
fn prepare_run<S: Shelf>(
    alloc: Global,
    plan: &Name,
    policy: Kind,
    seed: u32,
    turns: bool,
    shelf: &mut S,
    board: &Board,
) -> Result<Prepared, PrepareError>
    ensures prepares { Prepares (λ prepared. outcome_of prepared board.now) (λ told. request_steps (run_request plan.now policy seed turns) told board.now) (S.seen shelf.old) (S.seen shelf.new) result }
    ensures ready { IfOk result (CanCommit board.now) }
    ensures kind { IfOk result (λ prepared. is_store prepared ≡ false) }
    ensures asks { IfOk result (λ prepared. asks prepared ≡ Some policy) }
{
    let loading = loading_on(alloc, shelf, plan, board)?;
    Ok(Prepared::Run(loading, policy, seed, turns))
}

/// Does all that `gen` decides before anything is written. It asks for no file.
fn prepare_gen(alloc: Global, number: u32, board: &Board) -> Result<Prepared, PrepareError>
    requires { number ≤ 999999 }
    ensures prepares { (shelf : Shelved) → Prepares (λ prepared. outcome_of prepared board.now) (λ told. request_steps (generate_request number) told board.now) shelf shelf result }
    ensures ready { IfOk result (CanCommit board.now) }
    ensures kind { IfOk result (λ prepared. is_store prepared ≡ false) }
    ensures asks { IfOk result (λ prepared. asks prepared ≡ Some round_kind) }
{
    let loading = generated_on(alloc, number, board)?;
    Ok(Prepared::Generate(number, loading))
}

/// What a number comes to on this board.
fn generated_on(alloc: Global, number: u32, board: &Board) -> Result<Loading, PrepareError>
    requires { number ≤ 999999 }
    ensures decides { Decides (λ loading. loading) (generated_loading number board.now.base (length board.now.bytes)) result }
    ensures loads { IfOk result (CanLoad board.now.base (length board.now.bytes)) }
{
    prepare_generated(alloc, number, board.base(), board.len())
}
