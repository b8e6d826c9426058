ghost use Rattle.std.specs.Prelude.{◌≡◌, ◌<◌, ◌≤◌, ◌++◌, IfOk, MatchOption, option_to_list, vec_len, vec_capacity};
ghost use Rattle.nat_model.specs.State.{generation_in};

use octets::NoMemory;
use rule_book::{Book, RuleView};
use std::alloc::Global;

/// The rules of a view whose generation is greater than this one.
pub(crate) fn newer<V: RuleView>(
    alloc: Global,
    used: u32,
    view: &V,
) -> Result<Option<Book>, NoMemory>
    ensures { IfOk result (λ newer. MatchOption newer (V.number view.now ≤ used) (λ book. (used < V.number view.now)
        × (generation_in book ≡ record { rules = V.rules view.now; dmr = V.default_rule view.now; number = V.number view.now }))) }
{
    if view.generation() <= used {
        return Ok(None);
    }
    Ok(Some(Book::of_view(alloc, view)?))
}

/// Adds the rules of a newer generation, if there are any.
pub(crate) fn keep(books: &mut Vec<Book>, newer: Option<Book>)
    requires { vec_len books.old < vec_capacity books.old }
    ensures { books.new.items ≡ books.old.items ++ option_to_list newer }
{
    if let Some(book) = newer {
        books.push_reserved(book);
    }
}
