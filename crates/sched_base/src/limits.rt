//! The limits of sets, of their schedules and of executions. Each number stands here alone: `specs/Limits.antt` has the definitions
//! that contracts cite.

/// The most bytes of the text of a set.
pub const SET_LIMIT: usize = 1_048_576;

/// The most processors of a set.
pub const PROCESSOR_LIMIT: u32 = 32;

/// The most tasks of a set.
pub const TASK_LIMIT: u32 = 256;

/// The most units of a horizon, a period or an offset.
pub const UNIT_LIMIT: u32 = 4_294_967_295;

/// The most rows that a schedule has which is executed, printed or read.
pub const ROW_LIMIT: u64 = 2_097_152;

/// The largest window of an execution: the most rounds that a lane may run ahead of the others.
pub const WINDOW_LIMIT: u32 = 1_024;
