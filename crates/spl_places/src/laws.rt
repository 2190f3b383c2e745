//! Laws of lists of declarations, for who lays out a program and who generates code.
ghost use Rattle.std.specs.Prelude.{◌≡◌, ◌++◌, ◌+◌, ℕ, List, map, option_map, Some, true, false};
ghost use Rattle.spl_tree.specs.DeclarationTrees.{Declarations};
ghost use Rattle.spl_sorts.specs.spl_meaning.Names.{Names, Sort, Table, find, same_name};
ghost use Rattle.spl_sorts.specs.spl_meaning.Tables.{Source, Routine, with_declarations, routine_table};
ghost use Rattle.spl_places.specs.declared.places.Starts.{Starts};
ghost use Rattle.spl_places.specs.Spots.{behind_data};
ghost use Rattle.spl_sorts.specs.spl_meaning.Places.{item_words, array_words, Place, places_from, arrays_from, list_words};
ghost use Rattle.spl_sorts.specs.spl_meaning.Bodies.{own_table};
ghost use Rattle.spl_sorts.specs.spl_meaning.Sound.{IsSound};
ghost use Rattle.spl_sorts.specs.spl_meaning.Limits.{all_data, global_limits, local_limits};
ghost use Rattle.spl_places.specs.ListedData.{Datum, list_data};
ghost use Rattle.spl_places.specs.Apart.{Spot, spots_from, place_at, Within, Apart};
ghost use Rattle.spl_places.specs.Counters.{entry, total_words};
ghost use Rattle.spl_places.specs.Held.{held, named, NewNames};
ghost use Rattle.spl_places.specs.Passed.{global_passed, local_passed};
ghost use Rattle.spl_places.specs.Programs.{unit_items, routine_items, all_globals, all_locals, NewInUnit, NewInRoutine, NewInAll};

/// The items of a list are all its data; and they are what its table holds, where each item's name is new.
pub fn items_are_held()
    ensures all { (outer : Names) (table : Table Sort) (ds : Declarations) → map entry (list_data outer (find table) ds) ≡ all_data outer table ds }
    ensures table { (outer : Names) (table : Table Sort) (ds : Declarations) → NewNames outer table ds → held (with_declarations outer table ds) ≡ held table ++ map named (list_data outer (find table) ds) }
{}

/// The places of a list are those of its items, where each item's name is new.
pub fn items_have_places()
    ensures unit { (u : Source) (at : ℕ → Place) (own here : ℕ) → NewInUnit u → places_from at own here (own_table u) ≡ places_from at own here (map named (unit_items u)) }
    ensures unit_arrays { (u : Source) (at : ℕ → Place) (own here : ℕ) → NewInUnit u → arrays_from at own here (own_table u) ≡ arrays_from at own here (map named (unit_items u)) }
    ensures routine { (r : Routine) (at : ℕ → Place) (own here : ℕ) → NewInRoutine r → places_from at own here (routine_table r) ≡ places_from at own here (map named (routine_items r)) }
    ensures routine_arrays { (r : Routine) (at : ℕ → Place) (own here : ℕ) → NewInRoutine r → arrays_from at own here (routine_table r) ≡ arrays_from at own here (map named (routine_items r)) }
{}

/// The limits of lists are those of their items, where each item's name is new.
pub fn items_pass_limits()
    ensures global { (us : List Source) → NewInAll us → global_limits us ≡ global_passed (all_globals us) (all_locals us) }
    ensures local { (r : Routine) → NewInRoutine r → local_limits r ≡ local_passed (routine_items r) }
{}

/// Where an item of a list stands: a name's place is its item's; its words are among those of the list; and two
/// items have no word in common, where both are OWN or neither is.
pub fn items_stand_apart()
    ensures place { (at : ℕ → Place) (own here : ℕ) (t : Table Sort) (x : List ℕ) → find (places_from at own here t) x ≡ option_map (place_at at) (find (spots_from own here t) x) }
    ensures sort { (own here : ℕ) (t : Table Sort) (x : List ℕ) → find (held t) x ≡ option_map (λ p. p.sort) (find (spots_from own here t) x) }
    ensures within { (own here : ℕ) (t : Table Sort) (x : List ℕ) (p : Spot) → find (spots_from own here t) x ≡ Some p → Within own (own + list_words true t) here (here + list_words false t) p }
    ensures apart { (own here : ℕ) (t : Table Sort) (x y : List ℕ) (p q : Spot) → same_name x y ≡ false → p.own ≡ q.own → find (spots_from own here t) x ≡ Some p → find (spots_from own here t) y ≡ Some q → Apart p q }
{}

/// In units that break no rule each item's name is new in its list.
pub fn sound_items_are_new()
    ensures { (us : List Source) → IsSound us → NewInAll us }
{}

/// Behind items the next stand so many words on: those of the items that are OWN, of their arrays, and of the others.
pub fn items_move_starts()
    ensures own { (at : Starts) (ds : List Datum) → (behind_data at ds).own ≡ at.own + total_words true item_words ds }
    ensures own_arrays { (at : Starts) (ds : List Datum) → (behind_data at ds).own_arrays ≡ at.own_arrays + total_words true array_words ds }
    ensures here { (at : Starts) (ds : List Datum) → (behind_data at ds).here ≡ at.here + total_words false item_words ds }
    ensures here_arrays { (at : Starts) (ds : List Datum) → (behind_data at ds).here_arrays ≡ at.here_arrays + total_words false array_words ds }
{}
