// A refusal in the part of a frame between its sync and its check, as the refusal of the whole frame.
ghost use Rattle.std.specs.Prelude.{◌≡◌, ◌+◌, ◌*◌, ◌≤◌};
ghost use Rattle.rules.specs.Refusals.{refused, reader_outcome};
ghost use Rattle.reader_channels.specs.Steps.{fault_number, fault_bit};

use reader_channels::values::faults::Fault;
use rules::ReadRefusal;

// A refusal at a bit of the part as the frame's: its bit is counted from the frame's first, two bytes more.
pub fn in_frame(fault: Fault) -> ReadRefusal
    requires { fault_bit fault ≤ 8 * 65535 }
    ensures { reader_outcome (Err result) ≡ refused (fault_number fault) (fault_bit fault + 16) }
{
    match fault {
        Fault::BadWidth(bit) => ReadRefusal::BadWidth(bit + 16),
        Fault::BadFactor(bit) => ReadRefusal::BadFactor(bit + 16),
        Fault::PastEnd(bit) => ReadRefusal::PastEnd(bit + 16),
    }
}
