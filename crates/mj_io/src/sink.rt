ghost use Rattle.std.specs.Prelude.{◌≡◌, ℕ, List, Option, take, OnOk, OnErr};
ghost use Rattle.mj_terms.specs.Causes.{HasCause};
ghost use Rattle.mj_io.specs.Grown.{grown};

/// The device failed; its count of faults rose.
#[derive(Clone, Copy, Debug, PartialEq, Eq)]
pub struct Failed;

/// What takes bytes one piece after the other, as standard output does.
pub trait Sink {
    /// All the bytes so far, where the object tells them.
    ghost told: { Self → Option (List ℕ) };

    /// How often the device has failed.
    ghost faults: { Self → ℕ };

    /// Puts the piece at the end. After a failure a front of the piece stands there.
    fn write(&mut self, piece: &[u8]) -> Result<(), Failed>
        ensures ok { OnOk result (told self.new ≡ grown (told self.old) piece.now) }
        ensures err { OnErr result ((k : ℕ) × (told self.new ≡ grown (told self.old) (take k piece.now))) }
        ensures cause { HasCause (record {}) (faults self.old) (faults self.new) result };
}
