// Laws of the definitions that the contracts of this crate cite. The functions do nothing: their contracts are proved.
ghost use Rattle.ged_link.specs.LinkLaws.{ResolvedIsFaultless, OneLinkFault, OneWayHasPlace};
ghost use Rattle.ged_link.specs.LinkLaws.{IdentifiersHavePlaces, OneRecordHasName};
ghost use Rattle.ged_link.specs.ResolvedLaws.{ResolvedOrFault};

/// A document's cross-references have no fault exactly where they are resolved.
pub fn resolved_is_faultless()
    ensures { ResolvedIsFaultless }
{}

/// Cross-references have one fault at most.
pub fn one_link_fault()
    ensures { OneLinkFault }
{}

/// Some link goes in one direction only exactly where the structure at some place does.
pub fn one_way_has_place()
    ensures { OneWayHasPlace }
{}

/// A document's identifiers are those that its structures have.
pub fn identifiers_have_places()
    ensures { IdentifiersHavePlaces }
{}

/// Where cross-references are resolved, the structure that has an identifier has a tag exactly where some record has
/// both.
pub fn one_record_has_name()
    ensures { OneRecordHasName }
{}

/// A document's cross-references are resolved or have a fault.
pub fn resolved_or_fault()
    ensures { ResolvedOrFault }
{}
