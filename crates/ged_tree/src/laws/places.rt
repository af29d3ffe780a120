// Laws of the definitions that the contracts of this crate cite. The functions do nothing: their contracts are proved.
ghost use Rattle.ged_tree.specs.Laws.{OneDocument, OneForEachPlace, ListedAtPlace, NextLine, BeginsOnLine, CountedLines};

/// The list of a document's structures, in the order of the file, belongs to no other document.
pub fn one_document()
    ensures { OneDocument }
{}

/// The list of a document's structures has one for each place.
pub fn one_for_each_place()
    ensures { OneForEachPlace }
{}

/// The structure at a place stands at that place of the list.
pub fn listed_at_place()
    ensures { ListedAtPlace }
{}

/// A structure's line follows from what stands before it.
pub fn next_line()
    ensures { NextLine }
{}

/// A structure's own line is the one on which it begins.
pub fn begins_on_line()
    ensures { BeginsOnLine }
{}

/// The lines of a document are those of its structures, and TRLR's.
pub fn counted_lines()
    ensures { CountedLines }
{}
