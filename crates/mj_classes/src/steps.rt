//! Walks among places, from each of which one step leads.
ghost use Rattle.std.specs.Prelude.{◌≡◌, false, length, map, replicate, IfOk};
ghost use Rattle.mj_classes.specs.Steps.{led, halted, StayWithin, LeadFar, FlagReturns, LeadToTurns, AreHalted};

use std::alloc::{AllocError, Global};

/// For each place the one to which two steps lead.
fn twice(alloc: Global, steps: &[usize]) -> Result<Vec<usize>, AllocError>
    requires { StayWithin steps.now }
    ensures { IfOk result (λ far. far.items ≡ map (led steps.now) steps.now) }
{
    let mut far = Vec::new(alloc);
    for at in steps {
        far.push(steps[*at])?;
    }
    Ok(far)
}

/// For each place the one to which many steps lead, as many as there are places, or more.
///
/// It stops as soon as twice as many steps lead nowhere else.
fn lead_far(alloc: Global, steps: &[usize]) -> Result<Vec<usize>, AllocError>
    requires { StayWithin steps.now }
    ensures { IfOk result (λ far. LeadFar (led steps.now) (length steps.now) far.items) }
{
    let mut far = twice(alloc, steps)?;
    let mut count = 2;
    for _ in 0..steps.len() {
        if count >= steps.len() {
            return Ok(far);
        }
        let farther = twice(alloc, &far)?;
        if farther == far {
            return Ok(far);
        }
        far = farther;
        count += count;
    }
    Ok(far)
}

/// For each place the one at which a walk from there ends, which halts at the first place to which steps lead back.
pub fn turns(alloc: Global, steps: &[usize]) -> Result<Vec<usize>, AllocError>
    requires { StayWithin steps.now }
    ensures { IfOk result (λ turns. LeadToTurns steps.now turns.items) }
{
    let flags = come_back(alloc, steps)?;
    ends(alloc, steps, &flags)
}

/// For each place whether steps lead back to it.
fn come_back(alloc: Global, steps: &[usize]) -> Result<Vec<bool>, AllocError>
    requires { StayWithin steps.now }
    ensures { IfOk result (λ flags. FlagReturns steps.now flags.items) }
{
    let far = lead_far(alloc, steps)?;
    let mut flags = no_flags(alloc, steps.len())?;
    for at in &far {
        flags[*at] = true;
    }
    Ok(flags)
}

/// For each of so many places that it has no flag.
fn no_flags(alloc: Global, places: usize) -> Result<Vec<bool>, AllocError>
    ensures { IfOk result (λ flags. flags.items ≡ replicate places false) }
{
    vec![in alloc; false; places]
}

/// For each place the one at which a walk from there ends, which halts at the first place with a flag.
pub fn ends(alloc: Global, steps: &[usize], flags: &[bool]) -> Result<Vec<usize>, AllocError>
    requires within { StayWithin steps.now }
    requires flags { length flags.now ≡ length steps.now }
    ensures { IfOk result (λ ends.
        LeadFar (halted flags.now steps.now) (length steps.now) ends.items) }
{
    let halts = halted(alloc, steps, flags)?;
    let ends = lead_far(alloc, &halts)?;
    Ok(ends)
}

/// The steps, but from a place with a flag to itself.
fn halted(alloc: Global, steps: &[usize], flags: &[bool]) -> Result<Vec<usize>, AllocError>
    requires { length flags.now ≡ length steps.now }
    ensures { IfOk result (λ halts. AreHalted flags.now steps.now halts.items) }
{
    let mut halts = Vec::new(alloc);
    for (at, next) in steps.iter().enumerate() {
        halts.push(if flags[at] { at } else { *next })?;
    }
    Ok(halts)
}
