//! The laws that tie reading by the grammar to the grammar.
#![tactic(auto)]

mod expression_laws;
mod statement_laws;
mod unit_laws;
mod verdict_laws;

pub use expression_laws::{
    condition_faults_stand, condition_prefixes_are_completed, conditions_are_explained,
    conditions_are_longest, conditions_are_read, conditions_are_unique, conditions_fail_first,
    conditions_reach, conditions_sink_first, expression_faults_stand,
    expression_prefixes_are_completed, expressions_are_explained, expressions_are_longest,
    expressions_are_read, expressions_are_unique, expressions_fail_first, expressions_reach,
    expressions_sink_first,
};
pub use statement_laws::{
    statement_faults_stand, statement_prefixes_are_completed, statements_are_explained,
    statements_are_longest, statements_are_read, statements_are_unique, statements_fail_first,
    statements_reach, statements_sink_first,
};
pub use unit_laws::{
    bodies_are_explained, declaration_prefixes_are_completed, declarations_are_explained,
    declarations_are_longest, declarations_fail_first, declarations_reach, declarations_sink_first,
    shallow_units_are_read, texts_spell_one_unit, unit_faults_are_first, unit_faults_stand,
    unit_prefixes_are_completed, units_are_explained, units_are_read, units_are_read_exactly,
    units_are_unique, units_fail_first, units_reach, units_sink_first,
};
pub use verdict_laws::{
    unit_chains_keep_the_end, units_are_whole, verdicts_are_read, verdicts_are_unique,
};
