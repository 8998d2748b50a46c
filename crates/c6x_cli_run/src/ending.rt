ghost use Rattle.std.specs.Prelude.{◌≡◌, ℕ, ◌≤◌, length};
ghost use Rattle.c6x_cli_run.specs.Ends.{end_words, fault_words};

use c6x_base::{Line, hex_word};
use c6x_machine::{End, FaultKind};
use itoa::Buffer;

/// The words of an end.
#[tactic(auto, unfolding(crate::specs::Ends::end_words))]
pub fn end_line(end: End) -> Line
    ensures { result ≡ end_words end }
{
    let mut line = Line::new();
    match end {
        End::Exit(status) => {
            let mut number = Buffer::new();
            line.push(b"exit ");
            line.push(number.format(status).as_bytes());
        }
        End::Fault(kind, at) => {
            line.push(b"fault ");
            line.push(fault_text(&kind));
            line.push(b" at ");
            line.push(&hex_word(at));
        }
        End::Limit => line.push(b"limit"),
    }
    line
}

/// The code and the word of a fault.
#[tactic(auto, unfolding(crate::specs::Ends::fault_words))]
fn fault_text(kind: &FaultKind) -> &[u8]
    ensures words { result.now ≡ fault_words kind.now }
    ensures short { length result.now ≤ 20 }
{
    match kind {
        FaultKind::TwoBranches => b"F1 TwoBranches",
        FaultKind::Fetch => b"F2 Fetch",
        FaultKind::BadWord => b"F3 BadWord",
        FaultKind::BadPacket => b"F4 BadPacket",
        FaultKind::BadRead => b"F5 BadRead",
        FaultKind::BadWrite => b"F6 BadWrite",
        FaultKind::Misaligned => b"F7 Misaligned",
        FaultKind::TwoStores => b"F8 TwoStores",
        FaultKind::TwoWrites => b"F9 TwoWrites",
        FaultKind::OutputFull => b"F10 OutputFull",
    }
}
