//! What a device did, for contracts only. It has no size, and its methods do nothing at run time.
ghost use Rattle.std.specs.Prelude.{◌≡◌, ℕ, ◌+◌, Bool, true, false, List, [], ◌++◌};
ghost use Rattle.std.specs.Borrow.{ftrue};

use std::marker::Model;

/// The bytes that went through a device, whether the end was reached, and how many of its calls
/// failed.
#[derive(Drop)]
pub struct History {
    pub ghost bytes: { List ℕ },
    pub ghost is_ended: { Bool },
    pub ghost failures: { ℕ },
}

impl Model for History {
    ghost also_owns = { λ _. ftrue };
}

impl History {
    /// An empty history.
    pub fn new() -> History
        ensures { result ≡ record { bytes = []; is_ended = false; failures = 0 } }
    {
        History {}
    }

    /// This history, and then these bytes.
    pub fn and_bytes(&self, _bytes: &[u8]) -> History
        ensures { result ≡ record {
          bytes = self.now.bytes ++ _bytes.now;
          is_ended = self.now.is_ended;
          failures = self.now.failures;
        } }
    {
        History {}
    }

    /// This history, and then the end.
    pub fn and_end(&self) -> History
        ensures { result
            ≡ record { bytes = self.now.bytes; is_ended = true; failures = self.now.failures } }
    {
        History {}
    }

    /// This history, and then a failed call.
    pub fn and_failure(&self) -> History
        ensures { result ≡ record {
          bytes = self.now.bytes;
          is_ended = self.now.is_ended;
          failures = self.now.failures + 1;
        } }
    {
        History {}
    }
}
