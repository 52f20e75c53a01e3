ghost use Rattle.std.specs.Prelude.{◌≡◌};
ghost use Rattle.aria_page.specs.Page.{zero_page};

use aria_page::Page;

/// The page of zeros, to be lent.
#[derive(Drop)]
pub(crate) struct ZeroPage {
    page: Page,
    ghost blank: { page ≡ zero_page },
}

impl ZeroPage {
    pub(crate) fn new() -> ZeroPage {
        ZeroPage { page: Page::zero() }
    }

    pub(crate) fn get(&self) -> &Page
        ensures { result.now ≡ zero_page }
    {
        &self.page
    }
}
