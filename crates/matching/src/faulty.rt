//! How a check tells what it found.

ghost use Rattle.std.specs.Prelude.{◌≡◌, IfErr, Some, Err};
ghost use Rattle.matching.specs.Checks.{Checks, told};
ghost use Rattle.matching.specs.declared.faulty.Faulty.{Faulty};

use verdict_report::Fault;

/// A check found a fault, which stands in the place that the check was lent. The place is written only
/// then, so a message that is fine costs no fault.
#[derive(Clone, Copy)]
pub struct Faulty;

/// Puts a fault into its place.
pub fn refuse(found: &mut Option<Fault>, fault: Fault) -> Result<(), Faulty>
    ensures { Checks (Some fault) result found.new }
{
    *found = Some(fault);
    Err(Faulty)
}
