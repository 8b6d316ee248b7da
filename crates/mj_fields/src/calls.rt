ghost use Rattle.std.specs.Prelude.{◌≡◌, ◌≤◌, if◌then◌else◌};
ghost use Rattle.mj_fields.specs.Calls.{next, is_named};

use crate::Items;

/// Counts the calls on an object in memory, from 1, and its faults. The calls whose numbers are named fail.
#[derive(Debug, Drop)]
pub struct Calls {
    pub failing: Items<u64>,
    pub made: u64,
    pub faults: u64,
}

impl Calls {
    /// No call yet, and the numbers of the calls that are to fail. Takes no memory.
    pub fn new(failing: Items<u64>) -> Calls
        ensures { result ≡ record { failing = failing; made = 0; faults = 0 } }
    {
        Calls {
            failing,
            made: 0,
            faults: 0,
        }
    }

    /// Counts one more call and says whether it fails, which counts as a fault.
    pub fn next_fails(&mut self) -> bool
        ensures failing { self.new.failing ≡ self.old.failing }
        ensures made { self.new.made ≡ next self.old.made }
        ensures fails { result ≡ is_named self.old.failing self.old.made }
        ensures faults { self.new.faults ≡ (if result then next self.old.faults else self.old.faults) }
        ensures later { self.old.faults ≤ self.new.faults }
    {
        self.made = self.made.saturating_add(1);
        let fails = self.failing.as_slice().contains(&self.made);
        if fails {
            self.count_fault();
        }
        fails
    }

    /// Counts a fault that has another cause.
    pub fn count_fault(&mut self)
        ensures counts { self.new ≡ record self.old { faults = next self.old.faults } }
        ensures later { self.old.faults ≤ self.new.faults }
    {
        self.faults = self.faults.saturating_add(1);
    }
}
