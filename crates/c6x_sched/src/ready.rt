ghost use Rattle.std.specs.Prelude.{◌≡◌, ◌≤◌, length, vec_capacity};
ghost use Rattle.c6x_ports.specs.declared.limits.TheConstants.{MOST_PROCESSES};
ghost use Rattle.c6x_sched.specs.Turns.{ready_of};

use c6x_exec::Process;

/// Lists the numbers of the processes that have not ended. The list has room for all of them.
#[tactic(auto, unfolding(crate::specs::Turns::ready_of))]
pub(crate) fn list_ready(ready: &mut Vec<u32>, processes: &[Process])
    requires room { length processes.now ≤ vec_capacity ready.old }
    requires few { length processes.now ≤ MOST_PROCESSES }
    ensures listed { ready.new.items ≡ ready_of processes.now }
    ensures room { vec_capacity ready.old ≤ vec_capacity ready.new }
{
    ready.clear();
    for place in 0..processes.len() {
        if processes[place].ended().is_none() {
            match ready.push(place as u32) {
                Ok(()) => {}
                Err(_) => unreachable!(),
            }
        }
    }
}
