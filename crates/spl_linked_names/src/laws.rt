//! The laws of this crate, as the contracts of functions that do nothing.
ghost use Rattle.spl_linked_names.specs.Laws.{LinkedNamesAreUnique, LinkedUnitsHaveOneMain};

/// No two procedures of linked units have one name.
pub fn linked_names_are_unique()
    ensures { LinkedNamesAreUnique }
{}

/// One of them has a main body.
pub fn linked_units_have_one_main()
    ensures { LinkedUnitsHaveOneMain }
{}
