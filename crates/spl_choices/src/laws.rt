//! The laws of this crate, as the contracts of functions that do nothing.
ghost use Rattle.spl_choices.specs.Laws.{ChoicesPerform, EitherPerforms, CodeChoicesPerform, CodeEitherPerforms, NoArmChooses, ArmsChoose, CasesPerform, WhilePerforms, UntilPerforms};

/// IF without and with ELSE.
pub fn choices_perform()
    ensures one { ChoicesPerform }
    ensures either { EitherPerforms }
{}

/// IF on the condition code, without and with ELSE.
pub fn code_choices_perform()
    ensures one { CodeChoicesPerform }
    ensures either { CodeEitherPerforms }
{}

/// CASE: no arms, an arm before others, and the whole.
pub fn cases_perform()
    ensures none { NoArmChooses }
    ensures arm { ArmsChoose }
    ensures whole { CasesPerform }
{}

/// WHILE, and DO with UNTIL.
pub fn loops_perform()
    ensures before { WhilePerforms }
    ensures behind { UntilPerforms }
{}
