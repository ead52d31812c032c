//! The stretch of time that a picture shows.
ghost use Rattle.std.specs.Prelude.{◌≡◌, ◌+◌, ◌*◌, ◌≤◌, ◌<◌, ◌^◌, ◌&&◌, nat_le, nat_lt};
ghost use Rattle.trace_draw.specs.ShownUnits.{first_tick, end_tick, count_reaching, reaches, place, span, AreShownUnits};

use sched_base::Row;

/// The left edge of the plot, in tenths of a pixel, as are all lengths.
pub(crate) const LEFT: u64 = 1900;

/// The width of the plot.
pub(crate) const WIDTH: u64 = 9700;

/// The most rows that are drawn.
pub(crate) const MOST_DRAWN: usize = 20_000;

/// The least width of what is drawn of a row.
const LEAST: u64 = 6;

/// A stretch of time: so many units from one on.
#[derive(Clone, Copy)]
pub struct ShownUnits {
    /// The ticks of a unit.
    pub scale: u128,
    /// The first unit.
    pub from: u64,
    /// At least 1.
    pub units: u64,
}

impl ShownUnits {
    /// The first tick.
    pub(crate) fn first_tick(&self) -> u128
        requires { AreShownUnits self.now }
        ensures value { result ≡ first_tick self.now }
        ensures fits { result < 2 ^ 126 }
    {
        u128::from(self.from) * self.scale
    }

    /// The tick at which it ends.
    pub(crate) fn end_tick(&self) -> u128
        requires { AreShownUnits self.now }
        ensures value { result ≡ end_tick self.now }
        ensures fits { result < 2 ^ 126 }
    {
        u128::from(self.from + self.units) * self.scale
    }

    /// Whether the row has a tick in it.
    pub(crate) fn reaches(&self, row: &Row) -> bool
        requires { AreShownUnits self.now }
        ensures { result ≡ reaches self.now row.now }
    {
        row.start < self.end_tick() && self.first_tick() < row.end
    }

    /// How many of the rows have a tick in it.
    pub(crate) fn count_reaching(&self, rows: &[Row]) -> usize
        requires { AreShownUnits self.now }
        ensures { result ≡ count_reaching self.now rows.now }
    {
        let mut count = 0;
        for row in rows {
            if self.reaches(row) {
                count += 1;
            }
        }
        count
    }

    /// Whether the tick lies past its first one, and not past its end.
    pub(crate) fn has_past(&self, tick: u128) -> bool
        requires { AreShownUnits self.now }
        ensures { result ≡ (nat_lt (first_tick self.now) tick && nat_le tick (end_tick self.now)) }
    {
        self.first_tick() < tick && tick <= self.end_tick()
    }

    /// How far from the left a tick lies. Whole units and the rest go apart, so that no product passes 128 bits.
    pub(crate) fn place(&self, tick: u128) -> u64
        requires { AreShownUnits self.now }
        ensures value { result ≡ place self.now tick }
        ensures within { result ≤ 11600 }
    {
        let first = self.first_tick();
        let distance = tick.max(first).min(self.end_tick()) - first;
        let whole = distance / self.scale;
        let rest = distance % self.scale;
        let width = u128::from(WIDTH);
        let along = (whole * width + rest * width / self.scale) / u128::from(self.units);
        LEFT + along as u64
    }

    /// The width of what goes from one tick to another: narrow things can still be seen.
    pub(crate) fn span(&self, from: u128, to: u128) -> u64
        requires { AreShownUnits self.now }
        ensures value { result ≡ span self.now from to }
        ensures within { result ≤ 11600 }
    {
        self.place(to).saturating_sub(self.place(from)).max(LEAST)
    }
}
