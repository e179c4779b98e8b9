//! The parameters of the rounds of two portals.
ghost use Rattle.std.specs.Prelude.{◌≡◌, IfOk};
ghost use Rattle.runs.specs.PortalHistories.{specs_of};

use bit_strings::OutOfMemory;
use q_round::RoundSpec;
use scenario::Step;
use std::alloc::Global;

/// The parameters of the rounds among steps, in order.
///
/// # Errors
///
/// There was no memory.
pub(crate) fn round_specs(alloc: Global, steps: &[Step]) -> Result<Vec<RoundSpec>, OutOfMemory>
    ensures { IfOk result (λ specs. specs.items ≡ specs_of steps.now) }
{
    let mut specs = Vec::with_capacity(alloc, steps.len())?;
    for step in steps {
        let Step::Round(spec, _) = step else {
            continue;
        };
        specs.push(*spec)?;
    }
    Ok(specs)
}
