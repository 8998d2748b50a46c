ghost use Rattle.std.specs.Prelude.{◌≡◌, ◌≤◌};
ghost use Rattle.c6x_ports.specs.declared.limits.TheConstants.{MOST_QUANTUM};
ghost use Rattle.c6x_ports.specs.Chooser.{Chooser, Begins, Chooses};
ghost use Rattle.c6x_ports.specs.Picks.{IsReady};

use crate::kind::Kind;
use crate::pick::Pick;

/// Who runs next.
///
/// A policy has a kind, which no call changes; a state, a list of numbers; its last answer, once it has given one; and a
/// count of its answers, which never falls. The count rose in a call where it is greater afterwards or stands at 2^64 - 1.
/// For the kinds but [`Kind::Other`] the state says all that the policy will answer.
pub trait Policy: Drop {
    /// The kind, the state, the last answer and how many answers there were.
    ghost chooser: { Self → Chooser };

    /// The kind.
    fn kind(&self) -> Kind
        ensures { result ≡ (chooser self.now).kind };

    /// Begins for so many processes, with turns of at most `quantum` cycles. The answers so far stay counted.
    fn begin(&mut self, processes: u32, quantum: u32, seed: u32)
        requires some { 1 ≤ processes }
        requires least { 1 ≤ quantum }
        requires most { quantum ≤ MOST_QUANTUM }
        ensures { Begins processes quantum seed (chooser self.old) (chooser self.new) };

    /// Picks, where these processes are ready.
    fn choose(&mut self, ready: &[u32]) -> Pick
        requires { IsReady ready.now }
        ensures { Chooses ready.now (chooser self.old) (chooser self.new) result };
}
