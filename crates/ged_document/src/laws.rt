// Laws of nodes and of paths. The functions do nothing: their contracts are proved.
ghost use Rattle.ged_document.specs.Laws.{OnePlace, NodesByTrees, RecordsByTrees, DocumentsByTrees};

/// A path leads to one structure at most.
pub fn one_place()
    ensures { OnePlace }
{}

/// Nodes, records and whole documents are known by their trees: no two have the same.
pub fn known_by_trees()
    ensures nodes { NodesByTrees }
    ensures records { RecordsByTrees }
    ensures documents { DocumentsByTrees }
{}
