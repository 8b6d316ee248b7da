//! The limits of a mail, each in one place.

/// The most recipients.
pub const MAX_RECIPIENTS: usize = 500;

/// The most bytes of a body.
pub const MAX_BODY: usize = 16_777_216;

/// The most bytes of a head in its written form.
pub const MAX_HEAD: usize = 65_536;

/// The most bytes of an error text.
pub const MAX_ERROR: usize = 1_000;

/// The most bytes of the entry that a journal keeps of a step.
pub const MAX_DONE: u64 = 67_108_864;

/// The most bytes of a payload of a journal.
pub const MAX_PAYLOAD: u64 = 134_217_728;
