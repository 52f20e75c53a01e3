ghost use Rattle.std.specs.Prelude.{IsTrue, nat_lt};
ghost use Rattle.std.specs.List.{list_all};

use aria_model::{Exception, Met};
use aria_page::List;
use std::alloc::{AllocError, Global};

/// How many statements were executed, and the exceptions that they met.
#[derive(Drop)]
pub struct Tally {
    pub(crate) count: u64,
    pub(crate) met: List<Met>,
    ghost numbered: { IsTrue (list_all (λ m. nat_lt m.nth count) met) },
}

impl Tally {
    ghost use Rattle.std.specs.Prelude.{◌≡◌, ◌+◌, ◌<◌, ◌++◌, [], IfOk, OnOk, OnErr};
    ghost use Rattle.aria_engine.specs.Entries.{entry};

    /// No statement was executed yet.
    pub(crate) fn new(alloc: Global) -> Tally
        ensures count { result.count ≡ 0 }
        ensures met { result.met ≡ [] }
    {
        Tally {
            count: 0,
            met: List::new(alloc),
        }
    }

    /// Counts a statement, and says its number. After 2^64 - 1 statements there is no memory for more.
    pub(crate) fn begin(&mut self) -> Result<u64, AllocError>
        ensures nth { IfOk result (λ nth. nth ≡ self.old.count) }
        ensures count { OnOk result (self.new.count ≡ self.old.count + 1) }
        ensures err { OnErr result (self.new.count ≡ self.old.count) }
        ensures met { self.new.met ≡ self.old.met }
    {
        let nth = self.count;
        match nth.checked_add(1) {
            None => Err(AllocError),
            Some(count) => {
                self.count = count;
                Ok(nth)
            }
        }
    }

    /// Notes the exception that the statement of this number met.
    pub(crate) fn note(&mut self, nth: u64, why: Option<Exception>) -> Result<(), AllocError>
        requires { nth < self.old.count }
        ensures ok { OnOk result (self.new.met ≡ self.old.met ++ entry nth why) }
        ensures err { OnErr result (self.new.met ≡ self.old.met) }
        ensures count { self.new.count ≡ self.old.count }
    {
        match why {
            None => Ok(()),
            Some(why) => self.met.push(Met { nth, why }),
        }
    }

    /// Hands out the exceptions, and forgets them.
    pub(crate) fn take(&mut self, alloc: Global) -> List<Met>
        ensures met { result ≡ self.old.met }
        ensures emptied { self.new.met ≡ [] }
        ensures count { self.new.count ≡ self.old.count }
    {
        std::mem::replace(&mut self.met, List::new(alloc))
    }
}
