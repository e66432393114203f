// What a read comes to: the tests of its last rows as the number that is answered, and a number as the
// verdict it stands for.
#![tactic(auto)]

ghost use Rattle.std.specs.Prelude.{◌≡◌, cond};
ghost use Rattle.model.specs.Calls.{returned, bar};
ghost use Rattle.verdict.specs.Numbers.{verdict_by};

use model::{Refusal, Verdict};

// A number where its row is met, or a later one: too little to branch for.
fn pick(met: bool, number: u64, later: u64) -> u64
    ensures { result ≡ cond met number later }
{
    if met {
        return number;
    }
    later
}

// The number of the first of rows 11 to 14 that is met, and 0 where none is. A read by duty passes the
// last two.
// Kept: a number, as `reading::number` gives it.
pub fn first_of(
    out_of_reach: bool,
    no_permission: bool,
    by_duty: bool,
    changed: bool,
    linkable: bool,
) -> u64
    ensures { result ≡ returned (bar out_of_reach Refusal.OutOfReach (bar no_permission Refusal.NoPermission (cond by_duty Verdict.Granted (bar changed Refusal.Changed (bar linkable Refusal.Linkable Verdict.Granted))))) }
{
    let row14 = pick(linkable, Refusal::Linkable as u64, 0);
    let row13 = pick(changed, Refusal::Changed as u64, row14);
    let past12 = pick(by_duty, 0, row13);
    let row12 = pick(no_permission, Refusal::NoPermission as u64, past12);
    pick(out_of_reach, Refusal::OutOfReach as u64, row12)
}

// The verdict that has this number.
// Kept: a function and no `From`, which would have to stand in `model`, where the verdict is declared, with
// the definition of what a number above 15 stands for.
pub fn verdict_by(number: u64) -> Verdict
    ensures { result ≡ verdict_by number }
{
    if number == 0 {
        return Verdict::Granted;
    }
    Verdict::Refused(Refusal::try_from(number).unwrap_or(Refusal::Malformed))
}
