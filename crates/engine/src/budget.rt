// What a failed attempt costs: the one rule of retries and waits, and what a call counts.
ghost use Rattle.std.specs.Prelude.{◌≡◌};
ghost use Rattle.engine.specs.Budget.{wait_of, failed, nothing, waited, tallied};

use protocol::consts::DEFAULT_ERROR_BACKOFF_DELAY_MS;

// The retries that are left to a frame, or to a whole reading call.
#[derive(Clone, Copy, Debug, PartialEq, Eq)]
pub struct Budget {
    pub left: u16,
}

// The wait after a failure, in milliseconds, where so many of the same budget went before it: 10; or, where waits grow, 10, 20, 40, then 80 for good.
fn wait_after(growing: bool, before: u16) -> u32
    ensures { result ≡ wait_of growing before }
{
    if growing {
        match before {
            0 => 10,
            1 => 20,
            2 => 40,
            _ => 80,
        }
    } else {
        DEFAULT_ERROR_BACKOFF_DELAY_MS
    }
}

impl Budget {
    // One failed attempt, of a budget that began with so many retries and whose waits grow or do not: what is left for another one and the wait before it,
    // in milliseconds; or none, and the call gives up.
    pub fn fail(self, retries: u16, growing: bool) -> Option<(Budget, u32)>
        ensures { result ≡ failed retries growing self }
    {
        let left = self.left.checked_sub(1)?;
        let before = retries.saturating_sub(self.left);
        Some((Budget { left }, wait_after(growing, before)))
    }
}

// What a call counts beside its answer. A count stays at the largest number, which no call by name reaches.
#[derive(Clone, Copy, Debug, PartialEq, Eq)]
pub struct Tally {
    // Waits, one for each failure that was retried.
    pub waits: u32,
    // How long they were in all, in milliseconds.
    pub waited_ms: u32,
    // Transfers, one for each outcome that was taken.
    pub transfers: u32,
}

impl Tally {
    // Nothing counted yet.
    pub fn new() -> Tally
        ensures { result ≡ nothing }
    {
        Tally {
            waits: 0,
            waited_ms: 0,
            transfers: 0,
        }
    }

    // One wait more, of so many milliseconds.
    pub fn wait(self, ms: u32) -> Tally
        ensures { result ≡ waited self ms }
    {
        Tally {
            waits: self.waits.saturating_add(1),
            waited_ms: self.waited_ms.saturating_add(ms),
            ..self
        }
    }

    // One transfer more.
    pub fn transfer(self) -> Tally
        ensures { result ≡ tallied self }
    {
        Tally {
            transfers: self.transfers.saturating_add(1),
            ..self
        }
    }
}
