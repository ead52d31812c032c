//! A plan as its parts, each of which a plan of its own schedules: what hangs together by packs and duals, with tasks of its own.
#![tactic(auto)]

mod covers;
mod embedding;
mod first_level;
mod leaves;
mod likeness;
mod part_checks;
mod part_sets;
mod parts;
mod roots;

pub use first_level::{first_pack, first_packs};
pub use leaves::leaf_of;
pub use likeness::{are_leaves_alike, are_rates_alike};
pub use part_checks::factor_of;
pub use part_sets::{plan_of, with_pack};
pub use parts::{PartPlan, PartPlans, part_plans};
