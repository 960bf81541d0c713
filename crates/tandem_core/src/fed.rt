//! The answer to a message.

ghost use Rattle.std.specs.Prelude.{◌≡◌};
ghost use Rattle.tandem_core.specs.Cores.{fed_as};

use verdict_report::{Limit, Report, Verdict};

/// The answer to a message.
#[derive(Clone, Copy, Debug, PartialEq, Eq)]
pub enum Fed {
    /// Nothing is wrong so far.
    Fine,
    /// The message offends.
    Fault(Report),
    /// A count passed its limit at the message; `hart` is 0 where it is the count of messages.
    Full {
        message: u64,
        limit: Limit,
        hart: u8,
        count: u64,
    },
    /// The message is the End, and no message offends.
    Done {
        messages: u64,
        retired: u64,
        operations: u64,
    },
}

impl Fed {
    /// The answer to a message that ends with this verdict, or none.
    pub(crate) fn of(verdict: &Option<Verdict>) -> Fed
        ensures { result ≡ fed_as verdict.now }
    {
        match *verdict {
            None => Fed::Fine,
            Some(Verdict::Reject(report)) => Fed::Fault(report),
            Some(
                Verdict::Undecided {
                    message,
                    limit,
                    hart,
                    count,
                },
            ) => Fed::Full {
                message,
                limit,
                hart,
                count,
            },
            Some(
                Verdict::Accept {
                    messages,
                    retired,
                    operations,
                },
            ) => Fed::Done {
                messages,
                retired,
                operations,
            },
        }
    }
}
