ghost use Rattle.std.specs.Prelude.{◌≡◌, ◌⊎◌, ℕ, List, [], ◌∷◌, Option, OnOk, OnErr};
ghost use Rattle.mj_terms.specs.Causes.{HasCause};
ghost use Rattle.mj_io.specs.Grown.{grown};

use crate::Failed;

/// What takes lines one after the other, as a remote host does.
pub trait Wire {
    /// All the lines so far, without their ends, where the object tells them.
    ghost told: { Self → Option (List (List ℕ)) };

    /// How often the device has failed.
    ghost faults: { Self → ℕ };

    /// Presents a line, which is given without an end. After a failure it was presented or not.
    fn present(&mut self, line: &[u8]) -> Result<(), Failed>
        ensures ok { OnOk result (told self.new ≡ grown (told self.old) (line.now ∷ [])) }
        ensures err { OnErr result ((told self.new ≡ told self.old) ⊎ (told self.new ≡ grown (told self.old) (line.now ∷ []))) }
        ensures cause { HasCause (record {}) (faults self.old) (faults self.new) result };
}
