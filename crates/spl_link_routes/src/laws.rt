//! The law of this crate, as the contract of a function that does nothing.
ghost use Rattle.spl_link_routes.specs.Laws.{LinksFind};

/// The link of a procedure's name leads to the code of the procedure of that name.
pub fn links_find()
    ensures { LinksFind }
{}
