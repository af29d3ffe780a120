// Laws of the normal form and of the tidy form. The functions do nothing: their contracts are proved.
ghost use Rattle.std.specs.Prelude.{◌≡◌, true};
ghost use Rattle.ged_line.specs.Bytes.{Bytes};
ghost use Rattle.ged_tree.specs.Documents.{is_document};
ghost use Rattle.ged_link.specs.Links.{IsAmong, xrefs, IsNamed, Resolved};
ghost use Rattle.ged_schema.specs.Checked.{Checked};
ghost use Rattle.ged_schema.specs.Profiles.{NoNotice};
ghost use Rattle.ged_canon.specs.Laws.{NormalFormIsUnique, NormalFormExists, EqualNormalForms, IsKeptBySteps, EquivalentIsSymmetric, EquivalentIsTransitive, StepIsUndone, StepKeeps, EditionsAgree, SecondIsNormalInFirst};
ghost use Rattle.ged_canon.specs.TidyLaws.{TidyFormIsUnique, TidyFormExists, EqualTidyForms, PlaceStepIsUndone, InPlaceIsSymmetric, InPlaceIsTransitive, InPlaceIsEquivalent, IsKeptInPlace, NormalFormOfTidy, NormalIsTidy, TidyEditionsAgree, SecondIsTidyInFirst};

/// Two normal documents of which one becomes the other by steps are equal.
pub fn normal_form_is_unique()
    ensures { NormalFormIsUnique }
{}

/// Each document whose identifiers are distinct, whose pointers each name one of them, and which is as the structure tables ask, has a
/// normal form.
pub fn normal_form_exists()
    ensures { NormalFormExists }
{}

/// What a document becomes by steps is a document, resolved, checked and without notices where it was.
pub fn normal_form_is_accepted()
    ensures document { IsKeptBySteps (λ d. is_document d ≡ true) }
    ensures resolved { IsKeptBySteps Resolved }
    ensures checked { IsKeptBySteps Checked }
    ensures no_notice { IsKeptBySteps NoNotice }
{}

/// The normal forms of two documents are equal exactly when one document becomes the other by steps.
pub fn equal_normal_forms()
    ensures { EqualNormalForms }
{}

/// Where a document becomes another by steps, that one becomes the first by steps; and steps may follow steps.
pub fn equivalence()
    ensures symmetric { EquivalentIsSymmetric }
    ensures transitive { EquivalentIsTransitive }
{}

/// A step is undone by a step, and keeps a document resolved, checked and without notices.
pub fn steps()
    ensures undone { StepIsUndone }
    ensures resolved { StepKeeps Resolved }
    ensures checked { StepKeeps Checked }
    ensures no_notice { StepKeeps NoNotice }
{}

/// Documents that have the same normal form of the first edition have the same of the second, and what is normal in the second
/// edition is normal in the first.
pub fn editions_agree()
    ensures one_second { EditionsAgree }
    ensures normal_in_first { SecondIsNormalInFirst }
{}

/// Two tidy documents of which one becomes the other by steps at places are equal.
pub fn tidy_form_is_unique()
    ensures { TidyFormIsUnique }
{}

/// Each document that is as the structure tables ask has a tidy form.
pub fn tidy_form_exists()
    ensures { TidyFormExists }
{}

/// The tidy forms of two documents are equal exactly when one document becomes the other by steps at places.
pub fn equal_tidy_forms()
    ensures { EqualTidyForms }
{}

/// A step at a place is undone by one, and steps may follow steps. They are steps, and keep identifiers and pointers.
pub fn steps_in_place()
    ensures undone { PlaceStepIsUndone }
    ensures symmetric { InPlaceIsSymmetric }
    ensures transitive { InPlaceIsTransitive }
    ensures equivalent { InPlaceIsEquivalent }
    ensures identifiers { (name : Bytes) → IsKeptInPlace (λ d. IsAmong name (xrefs d)) }
    ensures pointers { (name : Bytes) → IsKeptInPlace (λ d. IsNamed d name) }
{}

/// The normal forms of a document are those of its tidy form, and a normal document is tidy.
pub fn normal_form_of_tidy()
    ensures normal_form { NormalFormOfTidy }
    ensures tidy { NormalIsTidy }
{}

/// Documents that have the same tidy form of the first edition have the same of the second, and what is tidy in the second edition
/// is tidy in the first.
pub fn editions_agree_in_place()
    ensures one_second { TidyEditionsAgree }
    ensures tidy_in_first { SecondIsTidyInFirst }
{}
