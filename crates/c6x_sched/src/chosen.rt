ghost use Rattle.c6x_ports.specs.Chooser.{Chooses};
ghost use Rattle.c6x_ports.specs.Picks.{IsReady};

use c6x_ports::{Pick, Policy};

/// The policy's answer, where these processes are ready.
pub(crate) fn chosen(policy: &mut Box<dyn Policy>, ready: &[u32]) -> Pick
    requires { IsReady ready.now }
    ensures { Chooses ready.now (chooser policy.old) (chooser policy.new) result }
{
    policy.choose(ready)
}
