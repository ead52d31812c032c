//! A hand on the rows of each processor, of which the one with the earliest row moves. Nothing is said of which that is: whoever
//! takes the rows looks.

use crate::row_list::RowList;
use sched_base::PROCESSOR_LIMIT;

/// The most processors of a set.
const HANDS: usize = PROCESSOR_LIMIT as usize;

/// A turn past all turns.
const NEVER: u64 = u64::MAX / 2;

/// How many binary digits a moment has at most.
const DIGITS: u32 = 58;

/// The rows of one processor, from the place that comes next to where they end.
#[derive(Clone, Copy)]
struct Hand {
    place: usize,
    end: usize,
}

// When a hand is to move: the moment at which its next row starts, and behind that the hand.
fn turn_of(moment: u64, hand: usize) -> u64 {
    (moment % (1 << DIGITS)) * HANDS as u64 + (hand % HANDS) as u64
}

// The earlier of two turns. The top bit of the difference tells which, without a branch that the processor would guess.
fn earlier(left: u64, right: u64) -> u64 {
    let mask = 0u64.wrapping_sub(right.wrapping_sub(left) >> 63);
    left ^ ((left ^ right) & mask)
}

/// The hands, and a tree over them: at its leaves the turn of each hand, and above each two the earlier one. Of ticks with too many
/// digits the last ones are dropped.
#[derive(Clone, Copy)]
pub(crate) struct Hands {
    hands: [Hand; HANDS],
    turns: [u64; 2 * HANDS],
    width: usize,
    dropped: u32,
}

impl Hands {
    /// The hands on rows that stand by processor.
    pub(crate) fn new(rows: &RowList) -> Hands {
        let mut hands = Hands {
            hands: [Hand { place: 0, end: 0 }; HANDS],
            turns: [NEVER; 2 * HANDS],
            width: 1,
            dropped: 0,
        };
        hands.lay(rows);
        hands
    }

    // Lays a hand on the rows of each processor that has some, and chooses among them.
    fn lay(&mut self, rows: &RowList) {
        let mut place = 0;
        for hand in 0..HANDS {
            if place < rows.len() {
                let end = end_of(rows, place, rows.get(place).processor);
                self.hands[hand] = Hand { place, end };
                self.dropped = self.dropped.max(dropped_at(rows, end));
                place = end;
                if self.width <= hand {
                    self.width = self.width.wrapping_mul(2);
                }
            }
        }
        for hand in 0..HANDS {
            if hand < self.width {
                self.choose(rows, hand);
            }
        }
    }

    /// The place of the row that comes next. Past the last row it is any number.
    pub(crate) fn next(&mut self, rows: &RowList) -> usize {
        let chosen = (self.turns[1] % HANDS as u64) as usize;
        let place = self.hands[chosen].place;
        self.hands[chosen].place = place.wrapping_add(1);
        if self.width > 1 {
            self.choose(rows, chosen);
        }
        place
    }

    // Chooses anew, from the next row of a hand on.
    fn choose(&mut self, rows: &RowList, hand: usize) {
        let Hand { place, end } = self.hands[hand % HANDS];
        let mut best = if place < end && place < rows.len() {
            turn_of(rows.moment(place, self.dropped), hand)
        } else {
            NEVER
        };
        let mut at = self.width.wrapping_add(hand) % (2 * HANDS);
        self.turns[at] = best;
        'up: while at > 1 {
            best = earlier(best, self.turns[(at ^ 1) % (2 * HANDS)]);
            at /= 2;
            self.turns[at] = best;
        }
    }
}

// How many of the last digits of the ticks by the end of the row before this place are dropped.
fn dropped_at(rows: &RowList, place: usize) -> u32 {
    if 0 < place && place <= rows.len() {
        let digits = 128 - rows.get(place - 1).end.leading_zeros();
        digits.saturating_sub(DIGITS)
    } else {
        0
    }
}

// Where the rows of a processor end, which stand from `begin` on before those of later ones.
fn end_of(rows: &RowList, begin: usize, processor: u32) -> usize {
    let mut low = begin;
    let mut high = rows.len();
    'halves: while low < high {
        let middle = low + (high - low) / 2;
        if is_past(rows, middle, processor) {
            high = middle;
        } else {
            low = middle + 1;
        }
    }
    low
}

// Whether there is no row at this place, or one of a later processor.
fn is_past(rows: &RowList, place: usize, processor: u32) -> bool {
    place >= rows.len() || rows.get(place).processor > processor
}
