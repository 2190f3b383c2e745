//! The laws of this crate, as the contracts of functions that do nothing.
ghost use Rattle.spl_label_marks.specs.Laws.{LabelsLead, LabelledPartsAre};

/// Labels of which none stands twice lead to marks of their own; and a part with marks for labels.
pub fn labels_lead()
    ensures own { LabelsLead }
    ensures part { LabelledPartsAre }
{}
