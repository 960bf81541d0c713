//! The verdicts on the form of a stream.

ghost use Rattle.std.specs.Prelude.{◌≡◌, ◌+◌, ◌≤◌, Some};
ghost use Rattle.text_runs.specs.Printouts.{bad_frame_at, truncated_at, passed_limit, most_printed};

use super::printing::MOST_PRINTED;
use msg_frames::FrameFault;
use verdict_report::{Fault, Limit, Report, Verdict};

/// The verdict on a frame that breaks the grammar, behind so many messages in so many bytes.
pub(crate) fn bad_frame(count: u64, offset: u64, fault: &FrameFault) -> Verdict
    requires few { count ≤ most_printed }
    requires low { offset ≤ 2056000000000 }
    ensures { result ≡ bad_frame_at count offset fault.now }
{
    let FrameFault {
        form,
        offset: behind,
    } = *fault;
    Verdict::Reject(Report {
        message: count + 1,
        offset: offset + u64::from(behind),
        head: None,
        fault: Fault::BadFrame { form },
    })
}

/// The verdict on a frame of which only `have` bytes came.
pub(crate) fn truncated(count: u64, offset: u64, have: u16) -> Verdict
    requires { count ≤ most_printed }
    ensures { result ≡ truncated_at count offset have }
{
    Verdict::Reject(Report {
        message: count + 1,
        offset,
        head: None,
        fault: Fault::Truncated { have },
    })
}

/// The verdict on more messages than are printed.
pub(crate) fn passed_limit() -> Verdict
    ensures { result ≡ passed_limit }
{
    Verdict::Undecided {
        message: MOST_PRINTED + 1,
        limit: Limit::Messages,
        hart: 0,
        count: MOST_PRINTED + 1,
    }
}
