// What a disk in memory counts, and which of its calls are to fail.
ghost use Rattle.std.specs.Prelude.{◌≡◌, ◌≤◌, [], None, Some};
ghost use Rattle.gs_types.specs.Counts.{up};
ghost use Rattle.gs_disk.specs.Mem.{counted, fails_after};
ghost use Rattle.gs_disk.specs.declared.disk.DiskErr.TheVariants.{Memory};

use crate::DiskErr;
use std::alloc::Global;
use std::marker::Model;

#[derive(Drop)]
pub struct Calls {
    // the numbers of the calls that are to fail
    failing: Vec<u64>,
    // the calls since those were given
    asked: u64,
    // the calls that are left before the disk stops
    working: Option<u64>,
    // the calls since the disk was made
    calls: u64,
    faults: u64,
    refusals: u64,
}

impl Model for Calls {
    ghost use Rattle.gs_disk.specs.Mem.{CallState};

    ghost Value = { CallState };

    ghost view = { λ c. record {
      failing = c.failing.items;
      asked = c.asked;
      working = c.working;
      calls = c.calls;
      faults = c.faults;
      refusals = c.refusals;
    } };
}

impl Calls {
    pub fn new(alloc: Global) -> Calls
        ensures { result ≡ record {
          failing = [];
          asked = 0;
          working = None;
          calls = 0;
          faults = 0;
          refusals = 0;
        } }
    {
        Calls {
            failing: Vec::new(alloc),
            asked: 0,
            working: None,
            calls: 0,
            faults: 0,
            refusals: 0,
        }
    }

    pub fn fail_at(&mut self, calls: Vec<u64>)
        ensures { self.new ≡ record self.old { failing = calls.items; asked = 0 } }
    {
        self.failing = calls;
        self.asked = 0;
    }

    pub fn stop_after(&mut self, k: u64)
        ensures { self.new ≡ record self.old { working = Some k } }
    {
        self.working = Some(k);
    }

    pub fn made(&self) -> u64
        ensures { result ≡ self.now.calls }
    {
        self.calls
    }

    /// Counts a call, and says whether it is one that is to fail.
    pub fn is_failing(&mut self) -> bool
        ensures value { result ≡ fails_after self.old.failing self.old.asked self.old.working }
        ensures counted { self.new ≡ counted self.old }
        ensures rise { self.old.faults ≤ self.new.faults }
    {
        let is_stopped = self.working == Some(0);
        self.working = match self.working {
            Some(k) => Some(k.saturating_sub(1)),
            None => None,
        };
        self.calls = self.calls.saturating_add(1);
        self.asked = self.asked.saturating_add(1);
        let fails = is_stopped || self.failing.contains(&self.asked);
        if fails {
            self.faults = self.faults.saturating_add(1);
        }
        fails
    }

    /// Counts a want of memory.
    pub fn refuse(&mut self) -> DiskErr
        ensures value { result ≡ Memory }
        ensures counted { self.new ≡ record self.old { refusals = up self.old.refusals } }
        ensures rise { self.old.refusals ≤ self.new.refusals }
    {
        self.refusals = self.refusals.saturating_add(1);
        DiskErr::Memory
    }
}
