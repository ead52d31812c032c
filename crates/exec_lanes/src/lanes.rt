//! Lanes: a gate in its seat.
ghost use Rattle.std.specs.Prelude.{◌≡◌, None};

use crate::causes::Cause;
use sched_edges::Gate;
use std::marker::Model;
use unit_ledger::{LaneSeat, PostLedger};

/// One processor's lane during a run: its gate, its seat in the ledger, and why it ended, where it ended early.
#[derive(Drop)]
pub struct Lane<G: Gate, Q: PostLedger> {
    /// What runs the lane's rows.
    pub gate: G,
    /// How many rows it has posted, with its share of the ledger.
    pub seat: LaneSeat<Q>,
    /// Why it ended before its last row.
    pub cause: Option<Cause>,
}

impl<G: Gate, Q: PostLedger> Model for Lane<G, Q> {
    ghost use Rattle.exec_lanes.specs.Lanes.{LaneContents};

    ghost Value = { LaneContents };

    ghost view = { λ l. record { ran = G.ran l.gate; faults = G.faults l.gate; seat = l.seat; cause = l.cause } };
}

impl<G: Gate, Q: PostLedger> Lane<G, Q> {
    /// The lane of a gate and a seat. Nothing has failed yet.
    pub fn new(gate: G, seat: LaneSeat<Q>) -> Lane<G, Q>
        ensures { result ≡ record { ran = G.ran gate; faults = G.faults gate; seat = seat; cause = None } }
    {
        Lane {
            gate,
            seat,
            cause: None,
        }
    }

    /// The seat.
    pub fn seat(&self) -> &LaneSeat<Q>
        ensures { result.now ≡ self.now.seat }
    {
        &self.seat
    }

    /// Why the lane ended before its last row.
    pub fn cause(&self) -> &Option<Cause>
        ensures { result.now ≡ self.now.cause }
    {
        &self.cause
    }

    /// The gate and the seat again.
    pub(crate) fn into_parts(self) -> (G, LaneSeat<Q>)
        ensures ran { G.ran result.0 ≡ self.ran }
        ensures faults { G.faults result.0 ≡ self.faults }
        ensures seat { result.1 ≡ self.seat }
    {
        let Lane {
            gate,
            seat,
            cause: _,
        } = self;
        (gate, seat)
    }
}
