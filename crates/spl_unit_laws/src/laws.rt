//! What holds of units whose code grew along their declarations, as the contracts of functions that do nothing.
ghost use Rattle.spl_unit_laws.specs.Laws.{UnitsAreMade, LabelsStandOnce};

/// Where the units of a program that breaks no rule stand, one behind the other, their modules are those of the program.
pub fn units_are_made()
    ensures { UnitsAreMade }
{}

/// In units that break no rule no label stands twice in any body of a unit's declarations.
pub fn labels_stand_once()
    ensures { LabelsStandOnce }
{}
