//! The log is brought to the disk between calls.

ghost use Rattle.std.specs.Prelude.{◌≡◌, ℕ, List, Some, None, IsTrue, IsSome, IfSome, OnOk};
ghost use Rattle.aria_host.specs.Calls.{HasDiskCause};
ghost use Rattle.aria_host.specs.Folder.{Folder};
ghost use Rattle.aria_record.specs.Logged.{Logged};
ghost use Rattle.aria_log.specs.Log.{log_pages};
ghost use Rattle.aria_cache.specs.Calls.{fault_of};
ghost use Rattle.aria_pager.specs.PageStore.{with_rest};
ghost use Rattle.aria_pager.specs.Pager.{Standing};
ghost use Rattle.aria_pager.specs.Goes.{Stands, Stays};
ghost use Rattle.aria_pager.specs.Steps.{SameWork};
ghost use Rattle.aria_pager.specs.View.{IsTidy, page_bodies};
ghost use Rattle.aria_pager.specs.Committed.{Forced};

use crate::page_store::PageStore;
use crate::pager::fault_in;
use aria_host::{Fault, FileName, Host};

impl PageStore {
    /// Brings all groups to the disk: no crash takes one of them from then on.
    pub fn force<H: Host>(&mut self, host: &mut H) -> Result<(), Fault>
        requires tidy { IsTidy self.old }
        requires stands { IsTrue H.tells → Stands self.old (H.state host.old) }
        ensures tidy { IsTidy self.new }
        ensures moves { IsTrue H.tells → Stays self.old self.new (H.state host.old) (H.state host.new) }
        ensures forces { IsTrue H.tells → OnOk result ((base : ℕ) (start : Folder) (groups : List Logged) (forced : ℕ) → Standing self.old (H.state host.old) base start groups forced
            → Forced self.old self.new (H.state host.old) (H.state host.new) base start groups forced) }
        ensures same { SameWork self.old (with_rest self.new self.new.in_group self.new.made self.new.lent self.old.kept) }
        ensures frames { self.new.frames ≡ self.old.frames }
        ensures reach { log_pages self.new.log ≡ log_pages self.old.log }
        ensures bodies { IsTrue H.tells → OnOk result (page_bodies self.new (H.state host.new).folder ≡ page_bodies self.old (H.state host.old).folder) }
        ensures keeps { self.new.kept ≡ fault_of result }
        ensures again { IfSome self.old.kept (λ kept. fault_of result ≡ Some kept) }
        ensures still { IsSome self.old.kept → (self.new ≡ self.old) × (host.new ≡ host.old) }
        ensures cause { self.old.kept ≡ None → HasDiskCause (H.state host.old) (H.state host.new) result }
    {
        let _file = FileName::Control;
        if let Some(fault) = self.kept {
            return Err(fault);
        }
        let answer = self.force_all(host);
        self.kept = fault_in(&answer);
        answer
    }
}
