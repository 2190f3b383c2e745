//! Laws of rules, each as the contract of a function that does nothing.
ghost use Rattle.spl_rules.specs.Laws.{RulesAreListed, FirstRulesAreFirst, SoundUnitsKeepAll, MisusedNamesBreak};

use spl_meaning::first_rules_are_broken;

/// Some part of some units breaks a rule at a place exactly where the rule is among all their faults there.
pub fn rules_are_listed()
    ensures { RulesAreListed }
{}

/// The first rule that units break is broken by a part at its place, and no part breaks another before it.
pub fn first_rules_are_first()
    ensures { FirstRulesAreFirst }
{
    first_rules_are_broken();
}

/// Units are sound exactly where no part breaks a rule.
pub fn sound_units_keep_all()
    ensures { SoundUnitsKeepAll }
{}

/// A name is misused exactly where it breaks 1 or 3 in an expression.
pub fn misused_names_break()
    ensures { MisusedNamesBreak }
{}
