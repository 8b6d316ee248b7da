//! Entries of each kind as bytes, from which other payloads are made.

/// The configuration `plan`.
const SETUP: &[u8] = b"\0\x04\0\0\0plan";

/// The acceptance of a mail with a sender, two recipients and two fields.
const ACCEPT: &[u8] = b"\x01\x07\0\0\0\0\0\0\0\x06\0\0\0a.mail\
\x01\x01\0\0\0a\x03\0\0\0b.c\
\x02\0\0\0\x01\0\0\0a\x03\0\0\0b.c\x01\0\0\0d\x03\0\0\0e.f\
\x02\0\0\0\x02\0\0\0To\x02\0\0\0 x\x01\0\0\0X\x05\0\0\0a\r\n b\
\x03\0\0\0hi\n";

/// A step with two replies and a fact of each kind.
const FACTS: &[u8] = b"\x02\x07\0\0\0\0\0\0\0\0\0\0\0\
\x02\0\0\0\xfa\0\x02\0\0\0ok\x26\x02\0\0\0\0\
\x08\0\0\0\
\0\x03\0\0\0box\0\x01\0\0\0\x01\0\0\0a\x03\0\0\0b.c\x01\0\0\0\x02\0\0\0To\x02\0\0\0 x\x01\x02\0\0\0hi\
\x01\x03\0\0\0b.c\x01\0\0\0a\x03\0\0\0b.c\xfa\0\x02\0\0\0ok\
\x02\x03\0\0\0b.c\x01\0\0\0\x01\0\0\0a\x03\0\0\0b.c\x02\0\0\0\xe8\x03\0\0\0\0\0\0\
\x03\x01\0\0\0\x01\0\0\0a\x03\0\0\0b.c\
\x04\x01\x01\0\0\0\x01\0\0\0a\x03\0\0\0b.c\
\x05\x04\0\0\0root\x01\0\0\0\x01\0\0\0a\x03\0\0\0b.c\
\x06\x01\0\0\0\x01\0\0\0a\x03\0\0\0b.c\
\x07\
\0\0\0\0";

/// A step with a child that waits for a processor, and one that is sent to a host.
const CHILDREN: &[u8] = b"\x02\x07\0\0\0\0\0\0\0\0\0\0\0\
\0\0\0\0\
\0\0\0\0\
\x02\0\0\0\
\x07\0\0\0\0\0\0\0\x01\0\0\0\x01\0\0\0\0\x01\0\0\0\x01\0\0\0a\x03\0\0\0b.c\
\0\0\0\0\0\x04\0\0\0root\0\0\0\0\0\0\0\0\0\x07\0\0\0\0\0\0\0\xe8\x03\0\0\x01\0\0\0\0\0\0\0\0\0\0\0\
\x07\0\0\0\0\0\0\0\x01\0\0\0\x02\0\0\0\x01\x01\0\0\0a\x03\0\0\0b.c\x01\0\0\0\x01\0\0\0a\x03\0\0\0b.c\
\x02\0\0\0\x01\0\0\0a\x01\0\0\0x\x01\0\0\0b\0\0\0\0\x01\x03\0\0\0out\x03\0\0\0b.c\x01\0\0\0\x04\0\0\0busy\
\x01\0\0\0\x02\0\0\0To\x02\0\0\0 x\x01\x02\0\0\0hi\x01\0\0\0\0\0\0\0\0\0\0\0";

/// An entry of each kind.
pub(crate) const SEEDS: [&[u8]; 4] = [SETUP, ACCEPT, FACTS, CHILDREN];
