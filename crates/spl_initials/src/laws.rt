//! The cells and initial values of a list of declarations are those of its items.
ghost use Rattle.std.specs.Prelude.{◌≡◌, ℕ, Bool, List, map};
ghost use Rattle.spl_tree.specs.DeclarationTrees.{Declarations};
ghost use Rattle.spl_sorts.specs.spl_meaning.Names.{Names, Sort, Table, find};
ghost use Rattle.spl_sorts.specs.spl_meaning.Places.{Place, Starts, laid};
ghost use Rattle.spl_places.specs.ListedData.{Datum};
ghost use Rattle.spl_places.specs.Held.{held, named};
ghost use Rattle.spl_initials.specs.Cells.{cells_by, initials_by};
ghost use Rattle.spl_initials.specs.Lists.{found_of};

/// A list whose table holds these items has their cells and initial values.
pub fn lists_are_laid()
    ensures cells { (own : Bool) (outer : Names) (before : Table Sort) (at : ℕ → Place) (starts : Starts) (t : Table Sort) (ds : Declarations) (items : List Datum) → held t ≡ map named items → (laid own outer before at starts t ds).cells ≡ cells_by own (found_of at starts items) items }
    ensures initials { (own : Bool) (outer : Names) (before : Table Sort) (at : ℕ → Place) (starts : Starts) (t : Table Sort) (ds : Declarations) (items : List Datum) → held t ≡ map named items → (laid own outer before at starts t ds).initials ≡ initials_by own outer (found_of at starts items) (find before) ds }
{}
