//! The trait of gates: what runs a processor's rows.
ghost use Rattle.std.specs.Prelude.{◌≡◌, ℕ, List, [], ◌∷◌, OnOk, OnErr};
ghost use Rattle.std.specs.declared.option.Option.{Option};
ghost use Rattle.sched_base.specs.declared.rows.Row.{Row};
ghost use Rattle.sched_edges.specs.Causes.{HasCause};
ghost use Rattle.sched_edges.specs.Gates.{grown};

use crate::streams::Failed;
use sched_base::Row;

/// What runs the rows of one processor.
pub trait Gate: Drop {
    /// The rows run so far, where it tells them.
    ghost ran: { Self → Option (List Row) };

    /// How often it has failed. The count never falls.
    ghost faults: { Self → ℕ };

    /// Runs one row. A row that failed was not run.
    fn run(&mut self, row: &Row) -> Result<(), Failed>
        ensures ok { OnOk result (ran self.new ≡ grown (ran self.old) (row.now ∷ [])) }
        ensures err { OnErr result (ran self.new ≡ ran self.old) }
        ensures count { OnOk result (faults self.new ≡ faults self.old) }
        ensures cause { HasCause (faults self.old) (faults self.new) result };
}
