ghost use Rattle.book_order.specs.Order.{BooksKeepOrder, OpeningsKeepOrder};
ghost use Rattle.book_order.specs.Sizes.{PlainDeltasAreAsLong};

/// Does nothing: its contract is a law of every event, whatever happened before it. The books that are
/// written then keep the order of those before them.
pub fn books_keep_order()
    ensures { BooksKeepOrder }
{}

/// Does nothing: its contract is the same law of what opens a book.
pub fn openings_keep_order()
    ensures { OpeningsKeepOrder }
{}

/// Does nothing: its contract is a law of any two books. Whether what changed between them fits
/// somewhere is a question about the books alone.
pub fn plain_deltas_are_as_long()
    ensures { PlainDeltasAreAsLong }
{}
