//! The guard over working bytes.
ghost use Rattle.std.specs.Prelude.{◌≡◌};
ghost use Rattle.wrap.specs.Calls.{work_after};

/// The least number of working bytes that a call takes, in bytes.
pub const WORKING_BYTES: usize = 512;

/// Working bytes, lent to a call: where there are enough of them, they hold zeros again whichever
/// way the call ends.
pub struct Working<'a> {
    pub bytes: &'a mut [u8],
}

impl Drop for Working<'_> {
    fn drop(self)
        ensures { self.exit.0.now ≡ work_after self.entry.bytes.now }
    {
        if self.bytes.len() >= WORKING_BYTES {
            self.bytes.fill(0);
        }
        let Working { bytes: _ } = self;
    }
}
