ghost use Rattle.std.specs.Prelude.{◌≡◌, ◌≤◌, ◌<◌, ◌∷◌, IfOk};
ghost use Rattle.c6x_gen.specs.Lists.{each_library, each_process};
ghost use Rattle.c6x_gen.specs.Links.{app_name};
ghost use Rattle.c6x_gen.specs.Plans.{module_named, plan_numbered, process_numbered};
ghost use Rattle.c6x_gen.specs.Sources.{library_name};

use crate::names::{library_name, numbered};
use c6x_base::{Name, Row};
use c6x_plan::{ModulePlan, ProcessPlan, RunPlan};
use std::alloc::{AllocError, Global};

/// The cycles after which a process would end.
const LIMIT: u32 = 100_000;

/// The bytes of a process's stack.
const STACK: u32 = 64;

/// The plan of the run.
#[tactic(auto, unfolding(crate::specs::Plans::plan_numbered))]
pub fn run_plan_of(alloc: Global, number: u32) -> Result<RunPlan, AllocError>
    requires { number ≤ 999999 }
    ensures { IfOk result (λ plan. plan ≡ plan_numbered number) }
{
    Ok(RunPlan {
        quantum: 1 + number % 50,
        modules: modules_of(alloc)?,
        processes: processes_of(alloc, number)?,
    })
}

/// The modules: the executable, and then the libraries.
#[tactic(auto, using(crate::proofs::Each::none, crate::proofs::Each::more))]
fn modules_of(alloc: Global) -> Result<Row<ModulePlan>, AllocError>
    ensures { IfOk result (λ modules. modules ≡ module_named app_name ∷ each_library (λ library. module_named (library_name library))) }
{
    let mut modules = Row::new(alloc);
    modules.push(module_named(alloc, b"app")?)?;
    for before in 0..11 {
        let name = library_name(before + 1);
        modules.push(module_named(alloc, name.as_bytes())?)?;
    }
    Ok(modules)
}

/// The module whose file has its name.
fn module_named(alloc: Global, name: &[u8]) -> Result<ModulePlan, AllocError>
    ensures { IfOk result (λ image. image ≡ module_named name.now) }
{
    Ok(ModulePlan {
        name: Name::from_bytes(alloc, name)?,
        file: Name::from_bytes(alloc, name)?,
    })
}

/// The processes.
#[tactic(auto, using(crate::proofs::Each::none, crate::proofs::Each::more))]
fn processes_of(alloc: Global, number: u32) -> Result<Row<ProcessPlan>, AllocError>
    requires { number ≤ 999999 }
    ensures { IfOk result (λ processes. processes ≡ each_process (process_numbered number)) }
{
    let mut processes = Row::new(alloc);
    for process in 0..8 {
        processes.push(process_numbered(alloc, number, process)?)?;
    }
    Ok(processes)
}

/// The process with this number.
fn process_numbered(alloc: Global, number: u32, process: u32) -> Result<ProcessPlan, AllocError>
    requires small { number ≤ 999999 }
    requires few { process < 8 }
    ensures { IfOk result (λ made. made ≡ process_numbered number process) }
{
    let name = numbered(b"p", process);
    Ok(ProcessPlan {
        name: Name::from_bytes(alloc, name.as_bytes())?,
        module: 0,
        limit: LIMIT,
        stack: STACK,
        arg: (number + process) % 100,
    })
}
