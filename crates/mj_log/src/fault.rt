/// Why a journal wasn't opened, or a payload not added.
#[derive(Clone, Copy, Debug, PartialEq, Eq)]
pub enum LogFault {
    /// The file is longer than nine bytes and doesn't begin as a journal does.
    NotAJournal,
    /// The gate of this number is open, and no whole frame follows.
    Damaged { number: u64 },
    /// The frame would pass the limit: the end, and the place that it would reach.
    Full { end: u64, need: u64 },
    /// The disk failed; its count of faults, which rose.
    DiskFault { faults: u64 },
    /// An earlier append met a disk fault; the count that it carried.
    Stopped { faults: u64 },
    /// There was no room.
    Memory,
}

/// A disk that wasn't opened, and why.
#[derive(Debug, Drop)]
pub struct LogRefused<D> {
    pub disk: D,
    pub fault: LogFault,
}
