//! What is known, as the contract of a function that does nothing.
ghost use Rattle.std.specs.Prelude.{true, false};
ghost use Rattle.spl_known_covered.specs.Programs.{AllSo, EachSo, EachInnerSo, covered_texts, other_texts, calling_texts, uncalled_texts, inner_texts, uncalled_inners};

/// These programs are covered, and those are not.
pub fn programs_are_covered()
    ensures covered { AllSo true covered_texts }
    ensures others { AllSo false other_texts }
    ensures calling { EachSo true calling_texts }
    ensures uncalled { EachSo false uncalled_texts }
    ensures inner { EachInnerSo true inner_texts }
    ensures uncalled_inner { EachInnerSo false uncalled_inners }
{}
