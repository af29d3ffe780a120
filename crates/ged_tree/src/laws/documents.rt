// Laws of documents, their lines and the faults of lines. The functions do nothing: their contracts are proved.
ghost use Rattle.ged_tree.specs.TreeLaws.{PassIsDocument, DocumentOrFault, FaultyHasNone, OneFirstTreeFault};
ghost use Rattle.ged_tree.specs.TreeLaws.{OneFaultInFile, FaultyFileFails};
ghost use Rattle.ged_tree.specs.TreeLaws.{OneList, NoneShared, AreLines};

/// No fault stands at any of the lines and TRLR is among them exactly where one document, and no other, has these lines
/// (FamilySearch GEDCOM 7.0, "Lines" and "Structures").
pub fn pass_is_document()
    ensures { PassIsDocument }
{}

/// Lines have one document or a first fault.
pub fn document_or_fault()
    ensures { DocumentOrFault }
{}

/// Lines with a first fault have no document.
pub fn faulty_has_none()
    ensures { FaultyHasNone }
{}

/// Lines have one first fault at most, at one line.
pub fn one_first_fault()
    ensures { OneFirstTreeFault }
{}

/// A file has one first fault at most, at one line.
pub fn one_fault_in_file()
    ensures { OneFaultInFile }
{}

/// A file with a first fault does not pass.
pub fn faulty_file_fails()
    ensures { FaultyFileFails }
{}

/// A document has one list of lines.
pub fn one_list()
    ensures { OneList }
{}

/// No two documents have the same lines.
pub fn none_shared()
    ensures { NoneShared }
{}

/// What a document has as its lines are lines, and fewer than 2 ^ 63.
pub fn are_lines()
    ensures { AreLines }
{}
