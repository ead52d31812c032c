//! How a call ends, and the number by which it is told.
#![tactic(auto)]

ghost use Rattle.std.specs.Prelude.{◌≡◌};
ghost use Rattle.exit_status.specs.Status.{code_of};

/// How a call ended. Its code is the exit status of the program.
#[derive(Clone, Copy, PartialEq, Eq)]
pub enum Status {
    /// The command was done, and its whole text was written.
    Done,
    /// The trace was read, and its rows aren't a valid schedule of its set. The line that says where and why was written.
    Invalid,
    /// The words are no command line. Nothing was read.
    Usage,
    /// The source failed.
    ReadFault,
    /// The sink failed, after a first part of the text.
    WriteFault,
    /// Memory was refused. No clause says when.
    NoMemory,
    /// The bytes were refused as what the command reads.
    BadInput,
    /// The tasks ask for more than the processors have.
    Overload,
    /// The scale exceeds 2^94.
    ScaleTooLarge,
    /// The schedule has more than 2,097,152 rows.
    TooLong,
    /// A gate failed. Nothing was written.
    GateFault,
    /// A job failed, and no gate did. Nothing was written.
    JobFault,
    /// The source gave more bytes than the command reads.
    InputTooLong,
    /// A set can't be a mode behind the others, for another reason than its load or its rows.
    ModeFault,
    /// The tree text is that of no reduction tree of its set.
    BadTree,
    /// The schedule has 2^64 ticks or more, or no horizon at which it repeats.
    TooWide,
}

impl Status {
    /// The number of the status.
    pub fn code(self) -> u8
        ensures code { result ≡ code_of self }
        ensures done { result ≡ 0 → self ≡ Status.Done }
    {
        match self {
            Status::Done => 0,
            Status::Invalid => 1,
            Status::Usage => 2,
            Status::ReadFault => 3,
            Status::WriteFault => 4,
            Status::NoMemory => 5,
            Status::BadInput => 6,
            Status::Overload => 7,
            Status::ScaleTooLarge => 8,
            Status::TooLong => 9,
            Status::GateFault => 10,
            Status::JobFault => 11,
            Status::InputTooLong => 12,
            Status::ModeFault => 15,
            Status::BadTree => 16,
            Status::TooWide => 17,
        }
    }
}
