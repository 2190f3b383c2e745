//! Laws of units, each as the contract of a function that does nothing.
ghost use Rattle.spl_grammar.specs.UnitLaws.{UnitsAreRead, UnitFaultsStand, UnitsAreUnique, TextsSpellOneUnit, DeclarationPrefixesAreCompleted, UnitPrefixesAreCompleted, DeclarationsAreExplained, BodiesAreExplained, UnitsAreExplained, UnitsAreReadExactly, ShallowUnitsAreRead, UnitFaultsAreFirst, DeclarationsReach, DeclarationsSinkFirst, DeclarationsAreLongest, DeclarationsFailFirst, UnitsReach, UnitsSinkFirst, UnitsFailFirst};

/// What is spelled as a unit is read, unless it is too deep before its end.
pub fn units_are_read()
    ensures { UnitsAreRead }
{}

/// A fault in a unit depends on no token behind its place.
pub fn unit_faults_stand()
    ensures { UnitFaultsStand }
{}

/// A list spells at most one unit.
pub fn units_are_unique()
    ensures { UnitsAreUnique }
{}

/// The tokens of a text spell at most one unit.
pub fn texts_spell_one_unit()
    ensures { TextsSpellOneUnit }
{}

/// Whatever opens a declaration can be completed to one.
pub fn declaration_prefixes_are_completed()
    ensures { DeclarationPrefixesAreCompleted }
{}

/// Whatever opens a unit can be completed to one.
pub fn unit_prefixes_are_completed()
    ensures { UnitPrefixesAreCompleted }
{}

/// What is read as a declaration is spelled, and each fault comes behind tokens that open one.
pub fn declarations_are_explained()
    ensures { DeclarationsAreExplained }
{}

/// What is read as the body of a procedure is spelled, and each fault comes behind tokens that open one.
pub fn bodies_are_explained()
    ensures { BodiesAreExplained }
{}

/// What is read as a unit is spelled, and each fault comes behind tokens that open one.
pub fn units_are_explained()
    ensures { UnitsAreExplained }
{}

/// A list is read as a unit to its end exactly where it spells one and is not too deep.
pub fn units_are_read_exactly()
    ensures { UnitsAreReadExactly }
{}

/// A unit in which nowhere more is open than may be is read.
pub fn shallow_units_are_read()
    ensures { ShallowUnitsAreRead }
{}

/// Some unit begins with the tokens before a fault, and none with those up to it.
pub fn unit_faults_are_first()
    ensures { UnitFaultsAreFirst }
{}

/// No chain of a declaration goes further than what is read.
pub fn declarations_reach()
    ensures { DeclarationsReach }
{}

/// Where a declaration is too deep at a token, it is too deep at none before.
pub fn declarations_sink_first()
    ensures { DeclarationsSinkFirst }
{}

/// What is read as a declaration is the longest: no chain goes over the token behind it.
pub fn declarations_are_longest()
    ensures { DeclarationsAreLongest }
{}

/// No chain of a declaration goes over the token at which a fault stands.
pub fn declarations_fail_first()
    ensures { DeclarationsFailFirst }
{}

/// No chain of a unit goes further than what is read.
pub fn units_reach()
    ensures { UnitsReach }
{}

/// Where a unit is too deep at a token, it is too deep at none before.
pub fn units_sink_first()
    ensures { UnitsSinkFirst }
{}

/// No chain of a unit goes over the token at which a fault stands.
pub fn units_fail_first()
    ensures { UnitsFailFirst }
{}
