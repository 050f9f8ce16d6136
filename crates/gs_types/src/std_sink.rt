// Standard output and error: the edge that is trusted.
ghost use Rattle.std.specs.Prelude.{◌≡◌, ◌≤◌};
ghost use Rattle.gs_types.specs.Counts.{up};

use crate::{Sink, SinkFailed};
use std::io::Write;

/// A sink over a writer of std. Each write is followed by a flush; what goes out isn't told.
#[derive(Drop)]
pub struct StdSink<W: Write + Drop> {
    to: W,
    faults: u64,
}

impl<W: Write + Drop> StdSink<W> {
    /// A sink over this writer, with no fault counted.
    pub fn new(to: W) -> StdSink<W>
        ensures { result.faults ≡ 0 }
    {
        StdSink { to, faults: 0 }
    }

    fn fail(&mut self) -> SinkFailed
        ensures count { self.new.faults ≡ up self.old.faults }
        ensures rise { self.old.faults ≤ self.new.faults }
    {
        self.faults = self.faults.saturating_add(1);
        SinkFailed
    }
}

impl<W: Write + Drop> Sink for StdSink<W> {
    ghost use Rattle.std.specs.Prelude.{[]};

    ghost tells = { ⊥ };

    ghost written = { λ s. [] };

    ghost faults = { λ s. s.faults };

    fn write(&mut self, bytes: &[u8]) -> Result<usize, SinkFailed> {
        let n = match self.to.write(bytes) {
            Ok(n) => n,
            Err(_) => return Err(self.fail()),
        };
        if n == 0 && !bytes.is_empty() {
            return Err(self.fail());
        }
        match self.to.flush() {
            Ok(()) => Ok(n),
            Err(_) => Err(self.fail()),
        }
    }
}
