//! The numbers that calls give besides the statuses of the program.

/// The call can't be made, or not now.
pub(crate) const WRONG_CALL: u8 = 64;

/// All rounds were told, or all rows of the processor are posted.
pub(crate) const OVER: u8 = 65;

/// No row is handed out yet.
pub(crate) const WAIT: u8 = 66;

/// A row failed before.
pub(crate) const HALTED: u8 = 67;
