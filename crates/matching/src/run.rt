//! What a hart's run keeps beside its state.

ghost use Rattle.std.specs.Prelude.{◌≡◌};
ghost use Rattle.rv_step.specs.Plans.{doing_seen};
ghost use Rattle.matching.specs.Runs.{csr_number, clock_at, clocks_after, pair_after};

use msg_frames::RdValue;
use rv_decode::Insn;
use rv_step::What;
use tandem_base::csrs::CYCLE;

/// The last reported values of the two counters that the model takes from the reports.
#[derive(Clone, Copy, Debug, PartialEq, Eq)]
pub struct Clocks {
    /// That of cycle.
    pub cycle: u64,
    /// That of time.
    pub time: u64,
}

/// The bytes of the LR that a later SC is paired with.
#[derive(Clone, Copy, Debug, PartialEq, Eq)]
pub struct Pair {
    /// The lowest address.
    pub addr: u64,
    /// How many bytes.
    pub len: u8,
}

/// The number of the CSR that an instruction names.
fn csr_number_of(insn: &Insn) -> u16
    ensures { result ≡ csr_number insn.now }
{
    match insn {
        Insn::Csr { number, .. } => *number,
        _ => 0,
    }
}

impl Clocks {
    /// The last reported value of the counter that an instruction reads.
    pub(crate) fn at(&self, insn: &Insn) -> u64
        ensures { result ≡ clock_at (csr_number insn.now) self.now }
    {
        if csr_number_of(insn) == CYCLE {
            self.cycle
        } else {
            self.time
        }
    }

    /// Takes the value that is reported of the counter that the instruction reads.
    pub(crate) fn advance(&mut self, what: &What, rd: Option<RdValue>)
        ensures { self.new ≡ clocks_after (doing_seen what.now) rd self.old }
    {
        if let (What::Counter(insn), Some(rd)) = (what, rd) {
            if csr_number_of(insn) == CYCLE {
                self.cycle = rd.value;
            } else {
                self.time = rd.value;
            }
        }
    }
}

/// Keeps the bytes of an LR, which an SC ends.
pub(crate) fn keep_pair(pair: &mut Option<Pair>, what: &What)
    ensures { pair.new ≡ pair_after (doing_seen what.now) pair.old }
{
    match what {
        What::Lr(_, extent) => {
            *pair = Some(Pair {
                addr: extent.addr(),
                len: extent.len(),
            });
        }
        What::Sc(..) => *pair = None,
        _ => {}
    }
}
