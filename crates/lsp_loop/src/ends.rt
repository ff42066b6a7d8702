//! How a run ends.

/// Why a run ends.
#[derive(Clone, Copy, Debug, PartialEq, Eq)]
pub enum End {
    /// The editor asked for it and had asked to shut down before, or the input ended between two messages.
    Done,
    /// The editor asked for it and hadn't asked to shut down before.
    NoShutdown,
    /// A read failed.
    ReadFault,
    /// A write failed.
    WriteFault,
    /// 2^40 bytes were taken.
    InputTooLong,
    /// Memory was short where no answer could say so.
    NoMemory,
    /// The input has no whole message where one begins, or it ended inside one.
    BadFrame,
}
