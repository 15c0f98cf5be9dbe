//! How a call ends.

/// How a call ends; the number of each is the program's exit status.
#[derive(Clone, Copy, Debug, PartialEq, Eq)]
pub enum Status {
    /// The whole output was written.
    Done,
    /// The words are of no form.
    Usage,
    /// A record of the airport file breaks a rule.
    AirportRefused,
    /// A read failed.
    ReadFault,
    /// A write failed.
    WriteFault,
    /// Memory ran out.
    Memory,
    /// A file is longer than its limit.
    TooLarge,
    /// A block of a transcript fails.
    Wrong,
    /// The first record of a schedule is another than it must be, or the second is.
    ScheduleRefused,
}
