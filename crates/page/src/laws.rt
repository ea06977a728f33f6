// What a page promises.
// A law is proved only where the contract of a function names it, so each has its own, which does nothing.
ghost use Rattle.page.specs.Laws.{PageReturns, PageReadOnly, PageShort};

pub fn page_returns()
    ensures { PageReturns }
{}

pub fn page_read_only()
    ensures { PageReadOnly }
{}

pub fn page_short()
    ensures { PageShort }
{}
