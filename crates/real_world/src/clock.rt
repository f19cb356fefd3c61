//! The machine's clock.

use outside_api::Clock;
use std::rt;
use std::time::SystemTime;

/// The machine's clock. It may give any moment, and gives 0 where it can't be read or stands before 1970.
#[derive(Drop)]
pub struct SystemClock<'a, R: rt::Clock> {
    rt: &'a R,
}

impl<'a, R: rt::Clock> SystemClock<'a, R> {
    /// The clock of this runtime.
    pub fn new(rt: &'a R) -> Self {
        SystemClock { rt }
    }
}

impl<R: rt::Clock> Clock for SystemClock<'_, R> {
    ghost says = { record { may_give = λ clock moment. Unit {0} } };

    fn now(&self) -> u64 {
        match SystemTime::now(self.rt) {
            Ok(now) => match now.duration_since(SystemTime::UNIX_EPOCH) {
                Ok(since) => since.as_secs(),
                Err(_) => 0,
            },
            Err(_) => 0,
        }
    }
}
