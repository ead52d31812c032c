//! Reading the lines after the row lines of a source, which aren't held as a whole.
ghost use Rattle.std.specs.Prelude.{ℕ, ◌≡◌, ◌≤◌, ◌<◌, ◌^◌, true, false, List, ◌++◌, IfOk, IfErr};
ghost use Rattle.std.specs.Io.KnownBytes.{IsAtEnd};
ghost use Rattle.text_words.specs.Words.{lines_of};
ghost use Rattle.text_window.specs.Windows.{StopsFilling};
ghost use Rattle.trace_check.specs.Sources.{GaveLast};
ghost use Rattle.trace_check.specs.TailLines.{first_other};
ghost use Rattle.trace_check.specs.Tails.{all_lines, IsTail};

use crate::tail_lines::Tail;
use sched_edges::{Source, TakeFault};
use text_window::Window;

/// Reads a source to its end, as the lines after the row lines: the place of the first one that isn't the expected one, counted
/// from 0. It may be known to be at its end before.
pub(crate) fn read_tail_on<R: Source>(
    source: &mut R,
    window: &mut Window,
    tail: &Tail,
    ended: bool,
) -> Result<Option<u64>, TakeFault>
    requires within { ended ≡ false → window.old.count ≤ window.old.limit }
    requires small { ended ≡ false → window.old.limit < 2 ^ 63 }
    requires end { ended ≡ true → IsAtEnd (R.left source.old) }
    requires tail { IsTail tail.now }
    ensures read { IfOk result (λ other. (more : List ℕ) × GaveLast (R.left source.old) (R.left source.new) ended window.old more
        × (first_other (all_lines tail.now) (lines_of (window.old.ahead ++ more)) ≡ other)) }
    ensures stops { IfErr result (λ fault. (ended ≡ false)
        × StopsFilling (R.left source.old) (R.left source.new) (R.faults source.old) (R.faults source.new) window.old fault) }
    ensures later { R.faults source.old ≤ R.faults source.new }
{
    let mut at_end = ended;
    let mut place = tail.first();
    let mut count = 0;
    loop {
        let taken = tail.take(place, window.ahead(), at_end);
        window.pass(taken.gone);
        place = taken.place;
        count += taken.count;
        if at_end {
            return Ok(if taken.is_other { Some(count) } else { None });
        }
        if taken.is_other {
            window.skip_all(source)?;
            return Ok(Some(count));
        }
        let least = 2 * window.ahead().len() + 1;
        at_end = !window.fill(source, least)?;
    }
}
