//! Which window is shown.
ghost use Rattle.std.specs.Prelude.{◌≡◌, ◌≤◌, ◌<◌, ◌+◌, IfSome};
ghost use Rattle.trace_draw.specs.ShownUnits.{first_unit, most_units, most_rows, shown_window, has_few, greatest_passing, AreShownUnits};

use crate::shown_units::{MOST_DRAWN, ShownUnits};
use command_words::Asked;
use trace_check::ReadTrace;

/// The most rows in a window, where the number of units isn't asked for.
const FEW: usize = 200;

/// The window that is shown. It is found by halving, and each half counts the rows once.
#[tactic(auto, unfolding(crate::specs::ShownUnits::shown_window))]
pub fn shown_window(trace: &ReadTrace, asked: &Asked) -> ShownUnits
    requires some { IfSome asked.now.units (λ n. 1 ≤ n) }
    ensures value { result ≡ shown_window trace.now asked.now }
    ensures window { AreShownUnits result }
{
    let _rows = trace.rows();
    let set = trace.set();
    let horizon = set.horizon();
    let from = asked.from.min(horizon - 1);
    let most = most_units(horizon - from, asked.units);
    ShownUnits {
        scale: trace.scale(),
        from,
        units: most_shown(trace, asked, from, most),
    }
}

fn most_units(left: u64, asked: Option<u64>) -> u64
    ensures value { result ≡ most_units left asked }
    ensures within { result ≤ left }
{
    match asked {
        Some(units) => units.min(left),
        None => left,
    }
}

fn most_rows(asked: Option<u64>) -> usize
    ensures { result ≡ most_rows asked }
{
    match asked {
        Some(_) => MOST_DRAWN,
        None => FEW,
    }
}

fn has_few(trace: &ReadTrace, asked: &Asked, from: u64, units: u64) -> bool
    requires from { from ≡ first_unit trace.now.set asked.now }
    requires some { 1 ≤ units }
    requires within { from + units ≤ trace.now.set.horizon }
    ensures { result ≡ has_few trace.now asked.now units }
{
    let _horizon = trace.set().horizon();
    let rows = trace.rows();
    let window = ShownUnits {
        scale: trace.scale(),
        from,
        units,
    };
    window.count_reaching(rows) <= most_rows(asked.units)
}

// The most units up to `most` into which few rows reach. Fewer rows reach into fewer units.
fn most_shown(trace: &ReadTrace, asked: &Asked, from: u64, most: u64) -> u64
    requires from { from ≡ first_unit trace.now.set asked.now }
    requires some { 1 ≤ most }
    requires within { from + most ≤ trace.now.set.horizon }
    ensures value { result ≡ greatest_passing (has_few trace.now asked.now) most }
    ensures some { 1 ≤ result }
    ensures within { result ≤ most }
{
    let mut low = 1;
    let mut high = most;
    'halving: while low < high {
        let middle = high - (high - low) / 2;
        if has_few(trace, asked, from, middle) {
            low = middle;
        } else {
            high = middle - 1;
        }
    }
    low
}
