//! Calls that are numbered from 1, and those among them that are to fail.
ghost use Rattle.std.specs.Prelude.{◌≡◌};
ghost use Rattle.taxi_io.specs.Counts.{next_count};
ghost use Rattle.taxi_io.specs.Calls.{is_listed, faults_after};

/// The numbers of the calls that fail, and how many were made and have failed.
#[derive(Drop)]
pub(crate) struct PlannedFaults {
    pub(crate) failing: Vec<u32>,
    pub(crate) calls: u64,
    pub(crate) faults: u64,
}

impl PlannedFaults {
    /// Before the first call.
    pub(crate) fn new(failing: Vec<u32>) -> PlannedFaults
        ensures failing { result.failing.items ≡ failing.items }
        ensures calls { result.calls ≡ 0 }
        ensures faults { result.faults ≡ 0 }
    {
        PlannedFaults {
            failing,
            calls: 0,
            faults: 0,
        }
    }

    /// Numbers a call, and says whether it is to fail, which counts as a fault.
    pub(crate) fn call_fails(&mut self) -> bool
        ensures listed { result ≡ is_listed self.old.failing.items (next_count self.old.calls) }
        ensures failing { self.new.failing ≡ self.old.failing }
        ensures calls { self.new.calls ≡ next_count self.old.calls }
        ensures faults { self.new.faults ≡ faults_after result self.old.faults }
    {
        self.calls = self.calls.saturating_add(1);
        let number = self.calls;
        let fails = self
            .failing
            .iter()
            .any(|listed| u64::from(*listed) == number);
        if fails {
            self.count_fault();
        }
        fails
    }

    /// Counts a fault that was not planned.
    pub(crate) fn count_fault(&mut self)
        ensures failing { self.new.failing ≡ self.old.failing }
        ensures calls { self.new.calls ≡ self.old.calls }
        ensures faults { self.new.faults ≡ next_count self.old.faults }
    {
        self.faults = self.faults.saturating_add(1);
    }
}
