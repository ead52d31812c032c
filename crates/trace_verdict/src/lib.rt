//! The rows of a trace: their orders, what is at fault with them, and what they tell. The work goes by rows and never by periods.
#![tactic(auto)]

mod apart_rows;
mod clock;
mod dealing;
mod dealt_orders;
mod entries;
mod faults;
mod fetching;
mod findings;
mod hands;
mod orders;
mod row_list;
mod searches;
mod short_standing;
mod short_walks;
mod standing;
mod supplied;
mod supply;
mod tally;
mod task_walks;
mod timed;
mod walks;

pub use apart_rows::are_apart;
pub use entries::Entry;
pub use faults::{FIRST_TASK_LINE, FaultKind, Verdict};
pub use findings::{Findings, findings_at};
pub use orders::{
    RowKey, front_len, order_by_processor, order_by_task, places_of, starts_of, task_key,
};
pub use row_list::{RowList, ShortRow};
pub use searches::{
    first_processor_hit, first_task_hit, first_unfit, first_unsupplied, is_fit, periods_of,
    task_periods,
};
pub use short_standing::count_short;
pub use standing::{all_places, comes_after, hits_last, stand, standing_len};
pub use supplied::{TaskOrder, supplied_order};
pub use supply::Periods;
pub use timed::timed_findings;
