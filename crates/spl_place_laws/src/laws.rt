//! The laws of this crate, as the contracts of functions that do nothing.
ghost use Rattle.std.specs.Prelude.{◌≡◌, ℕ, List, map};
ghost use Rattle.spl_entries.specs.spl_tree.DeclarationTrees.{Declarations};
ghost use Rattle.spl_entries.specs.spl_meaning.Names.{Names, Formal};
ghost use Rattle.spl_entries.specs.spl_meaning.Places.{data_word, above_base, below_base, below_return, places_from};
ghost use Rattle.spl_entries.specs.spl_meaning.Bodies.{parameter_places};
ghost use Rattle.spl_entries.specs.spl_places.declared.places.Starts.{Starts};
ghost use Rattle.spl_entries.specs.spl_places.ListedData.{Datum, list_data};
ghost use Rattle.spl_entries.specs.spl_places.Held.{named};
ghost use Rattle.spl_entries.specs.spl_places.Programs.{Each};
ghost use Rattle.spl_entries.specs.Entries.{item_entries, parameter_entries};
ghost use Rattle.spl_place_laws.specs.NamedEntries.{IsData, words_by, item_words_by, parameter_words_by};

/// The names of items in order with the words of their entries are the table of their places; and so it is with
/// parameters. So what a name has by look-up there is the word of the first entry of that name.
pub fn entries_have_places()
    ensures globals { (s : Starts) (ds : List Datum) → Each IsData ds → words_by (places_from data_word s.own s.here (map named ds)) ≡ item_words_by ds (item_entries s ds) }
    ensures locals { (s : Starts) (ds : List Datum) → Each IsData ds → words_by (places_from above_base s.own s.here (map named ds)) ≡ item_words_by ds (item_entries s ds) }
    ensures procedures { (gap : ℕ) (fs : List Formal) → words_by (parameter_places below_base gap fs) ≡ parameter_words_by fs (parameter_entries gap fs) }
    ensures subroutines { (gap : ℕ) (fs : List Formal) → words_by (parameter_places below_return gap fs) ≡ parameter_words_by fs (parameter_entries gap fs) }
{}

/// The items of a list stand for data.
pub fn items_are_data()
    ensures { (outer here : Names) (ds : Declarations) → Each IsData (list_data outer here ds) }
{}
