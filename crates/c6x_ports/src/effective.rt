ghost use Rattle.std.specs.Prelude.{◌≡◌, ◌≤◌};
ghost use Rattle.std.specs.List.{Contains};
ghost use Rattle.c6x_ports.specs.Picks.{IsReady, effective_process, effective_steps};

use crate::next::next_from;
use crate::pick::Pick;

/// The turn that a pick stands for among so many processes, of which some are ready: the first ready one from its process
/// on, upwards and round, and its steps brought into 1 to the quantum.
pub fn effective_pick(pick: Pick, ready: &[u32], processes: u32, quantum: u32) -> Pick
    requires ready { IsReady ready.now }
    requires some { 1 ≤ processes }
    requires quantum { 1 ≤ quantum }
    ensures process { result.process ≡ effective_process processes ready.now pick }
    ensures steps { result.steps ≡ effective_steps quantum pick }
    ensures ready { Contains ready.now result.process }
    ensures least { 1 ≤ result.steps }
{
    Pick {
        process: next_from(ready, pick.process % processes),
        steps: quantum.min(pick.steps.max(1)),
    }
}
