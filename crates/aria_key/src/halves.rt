//! The two halves of a page.

ghost use Rattle.std.specs.Prelude.{◌≡◌, ℕ, List, ◌<◌, ◌≤◌, length, IfOk, IfSome};
ghost use Rattle.aria_page.specs.Page.{page_body};
ghost use Rattle.aria_page.specs.declared.page.TheConstants.{BODY_BYTES};
ghost use Rattle.aria_keypage.specs.Content.{Content, Spells};
ghost use Rattle.aria_key.specs.Held.{AreEdits, IsHalved};

use aria_keypage::{KeyPage, Split};
use aria_page::Page;
use std::alloc::{AllocError, Global};

// The halves of a leaf or of a node.
fn halves_of(alloc: Global, page: &KeyPage<'_>) -> Result<Option<Split>, AllocError>
    ensures halved { IfOk result (λ r. IsHalved page.now r) }
    ensures small { IfOk result (λ r. IfSome r (λ s. AreEdits 3 99 s.left)) }
    ensures some { (body : List ℕ) → length body ≡ BODY_BYTES → Spells body page.now → IfOk result (λ r. IfSome r (λ s. 1 ≤ length s.left)) }
    ensures right { IfOk result (λ r. IfSome r (λ s. length s.right ≡ BODY_BYTES)) }
{
    if page.is_low() {
        return Ok(None);
    }
    let split = page.split(alloc)?;
    Ok(Some(split))
}

// The halves of a page; none where it is no key page, or has too few item bytes.
pub(crate) fn halves_in(alloc: Global, page: &Page) -> Result<Option<Split>, AllocError>
    ensures halved { (c : Content) → Spells (page_body page.now) c → IfOk result (λ r. IsHalved c r) }
    ensures small { IfOk result (λ r. IfSome r (λ s. AreEdits 3 99 s.left)) }
    ensures some { IfOk result (λ r. IfSome r (λ s. 1 ≤ length s.left)) }
    ensures right { IfOk result (λ r. IfSome r (λ s. length s.right ≡ BODY_BYTES)) }
{
    let _body = page.body();
    match KeyPage::view(page) {
        Some(view) => halves_of(alloc, &view),
        None => Ok(None),
    }
}
