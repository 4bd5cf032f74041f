//! How often changes were refused.
ghost use Rattle.std.specs.Prelude.{◌≡◌, ◌∷◌, ◌++◌, [], List, count_by, min};
ghost use Rattle.endpoint_core.specs.Counts.{most};
ghost use Rattle.endpoint_core.specs.declared.state.fault.ChangeFault.{ChangeFault as AFault};
ghost use Rattle.run_counts.specs.Keeping.{refusals_in};
ghost use Rattle.run_counts.specs.Totals.{same_fault};

use endpoint_core::ChangeFault;

/// One count for each number below 15, of which 1 to 14 are those of the causes.
const NUMBERS: usize = 15;

/// How often a change was refused, by the number of the cause. Each count ends at 2^64 - 1.
pub type Refusals = [u64; NUMBERS];

/// None was refused yet.
pub fn none_refused() -> Refusals
    ensures { (fault : AFault) → refusals_in result fault ≡ 0 }
{
    [0; NUMBERS]
}

/// How often a change was refused for a cause.
pub fn refused_for(refusals: &Refusals, fault: ChangeFault) -> u64
    ensures { result ≡ refusals_in refusals.now fault }
{
    refusals[usize::from(fault.number())]
}

/// Counts one more.
pub fn add_refusal(refusals: &mut Refusals, fault: ChangeFault)
    ensures { (cause : AFault) (causes : List AFault) → refusals_in refusals.old cause ≡ min most (count_by (same_fault cause) causes)
        → refusals_in refusals.new cause ≡ min most (count_by (same_fault cause) (causes ++ fault ∷ [])) }
{
    let number = usize::from(fault.number());
    let count = refusals[number];
    refusals[number] = count.saturating_add(1);
}
