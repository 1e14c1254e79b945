ghost use Rattle.std.specs.Prelude.{◌≤◌};
ghost use Rattle.aso_disk.specs.Causes.{Rose};

use aso_disk::Failed;

// Counts a failure.
pub(crate) fn count(faults: &mut u64) -> Failed
    ensures later { faults.old ≤ faults.new }
    ensures rose { Rose faults.old faults.new }
{
    *faults = faults.saturating_add(1);
    Failed
}
