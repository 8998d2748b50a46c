ghost use Rattle.std.specs.Prelude.{◌≡◌, ℕ, ◌≤◌, ◌<◌, ◌*◌, length};
ghost use Rattle.c6x_spec.specs.Memory.{Memory};
ghost use Rattle.c6x_machine.specs.Machine.{life};
ghost use Rattle.c6x_machine.specs.Origin.{Origin};
ghost use Rattle.c6x_plan.specs.declared.limits.TheConstants.{MOST_PROCESSES};
ghost use Rattle.c6x_sched.specs.Ended.{AllEnded, AllHaveLived, HasEnded, HasLived};
ghost use Rattle.c6x_sched.specs.System.{processes_of};
ghost use Rattle.c6x_cli.specs.Sums.{exit_of, status_of, sum_of, sums_line};

use c6x_base::Line;
use c6x_exec::Process;
use c6x_machine::End;
use c6x_sched::System;
use itoa::Buffer;

/// The cycles of the first of the processes.
pub fn cycles_of(system: &System, count: u32) -> u64
    requires same { count ≡ length (processes_of system.now) }
    requires few { count ≤ MOST_PROCESSES }
    ensures { (b : Memory) (s : ℕ → Origin) → AllHaveLived (processes_of system.now) b s → result ≡ sum_of count (λ process. life (s process)) }
{
    let mut sum = 0;
    for number in 0..count {
        sum += u64::from(system.process(number).cycles());
    }
    sum
}

/// Their exit statuses.
pub fn exits_of(system: &System, count: u32) -> u64
    requires same { count ≡ length (processes_of system.now) }
    requires few { count ≤ MOST_PROCESSES }
    requires ended { AllEnded (processes_of system.now) }
    ensures { (b : Memory) (s : ℕ → Origin) → AllHaveLived (processes_of system.now) b s → result ≡ sum_of count (λ process. exit_of (s process)) }
{
    let mut sum = 0;
    for number in 0..count {
        sum += u64::from(exit_of(system.process(number)));
    }
    sum
}

/// The exit status of a process; 0 where another end has none.
fn exit_of(process: &Process) -> u32
    requires { HasEnded process.now }
    ensures { (b : Memory) (s : Origin) → HasLived process.now b s → result ≡ exit_of s }
{
    let end = process.ended().unwrap();
    status_of(end)
}

/// The exit status of an end.
fn status_of(end: End) -> u32
    ensures { result ≡ status_of end }
{
    match end {
        End::Exit(status) => status,
        End::Fault(_, _) => 0,
        End::Limit => 0,
    }
}

/// The line of the sums.
#[tactic(auto, unfolding(crate::specs::Sums::sums_line))]
pub fn sums_line(number: u32, processes: u32, modules: u32, cycles: u64, exits: u64) -> Line
    ensures { result ≡ sums_line number processes modules cycles exits }
{
    let mut digits = Buffer::new();
    let mut line = Line::new();
    line.push(b"gen ");
    line.push(digits.format(number).as_bytes());
    line.push(b" processes ");
    line.push(digits.format(processes).as_bytes());
    line.push(b" modules ");
    line.push(digits.format(modules).as_bytes());
    line.push(b" cycles ");
    line.push(digits.format(cycles).as_bytes());
    line.push(b" exits ");
    line.push(digits.format(exits).as_bytes());
    line.push(b"\n");
    line
}
