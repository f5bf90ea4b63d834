//! Counts of faults.

ghost use Rattle.std.specs.Prelude.{◌≡◌, ◌≢◌};
ghost use Rattle.glass_base.specs.declared.role.Role.{Role};
ghost use Rattle.glass_io.specs.Held.{faults_of};
ghost use Rattle.glass_io.specs.Told.{Counted};

use glass_base::Role;

/// The count with one more, or the greatest `u64`.
pub(crate) fn one_more(count: u64) -> u64
    ensures { Counted count result }
{
    count.saturating_add(1)
}

/// Counts a failed read of this role.
pub(crate) fn count_read(counts: &mut [u64; 7], role: Role)
    ensures counted { Counted (faults_of counts.old role) (faults_of counts.new role) }
    ensures others { (of : Role) → of ≢ role → faults_of counts.new of ≡ faults_of counts.old of }
{
    let at = role.place();
    counts[at] = one_more(counts[at]);
}
