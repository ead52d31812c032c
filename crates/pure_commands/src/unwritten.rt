//! Which refusal it is that a text wasn't written.
ghost use Rattle.std.specs.Prelude.{◌≡◌, Ok, Err, MatchResult};
ghost use Rattle.pure_commands.specs.declared.refusal.Refusal.TheVariants as why;

use crate::refusal::Refusal;
use sched_edges::Failed;

/// Where the sink of a text failed, that is told.
pub fn written(wrote: Result<(), Failed>) -> Result<(), Refusal>
    ensures { MatchResult wrote (λ v. result ≡ Ok v) (λ _. result ≡ Err why.WriteFault) }
{
    match wrote {
        Ok(()) => Ok(()),
        Err(_) => Err(Refusal::WriteFault),
    }
}
