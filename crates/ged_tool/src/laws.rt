// Laws of the definitions that the contracts of this crate cite. The functions do nothing: their contracts are proved.
ghost use Rattle.ged_tool.specs.Laws.{CanonIsPromised, SecondAgrees};
ghost use Rattle.ged_tool.specs.Tidied.{TidyIsPromised};
ghost use Rattle.ged_tool.specs.SameLaws.{OneComparison, SameAsItself, SameBothWays, SameOnward, SameByCanon};
ghost use Rattle.ged_tool.specs.SameLaws.{SameByBytes, TidySameIsSame};
ghost use Rattle.ged_tool.specs.DigestLaws.{OneDigest, SameDigest, CanonKeepsDigest};
ghost use Rattle.ged_tool.specs.SameLaws.{LinesKeepAcceptance, LinesKeepFault, LinesKeepCanon};

/// What is promised of canonical bytes holds of all of them, of those that a run writes too.
pub fn headline()
    ensures promised { CanonIsPromised }
    ensures second_agrees { SecondAgrees }
{}

/// What is promised of tidy bytes holds of all of them, of those that a run writes too.
pub fn tidy_headline()
    ensures { TidyIsPromised }
{}

/// Being the same is reflexive, symmetric and transitive among the files that are accepted under a profile: what
/// [`same_as`](crate::same_as) answers of two files is one answer, is true of a file and itself, holds in both orders, and
/// goes on from the second file to a third. Files are the same exactly where their canonical bytes are equal.
pub fn same_is_an_equivalence()
    ensures one_answer { OneComparison }
    ensures reflexive { SameAsItself }
    ensures symmetric { SameBothWays }
    ensures transitive { SameOnward }
    ensures by_canon { SameByCanon }
{}

/// Files are the same in a form exactly where their bytes in that form are equal. Those that are the same in the tidy form
/// are the same in the canonical form: what keeps identifiers tells more files apart, and none fewer.
pub fn same_in_each_form()
    ensures by_bytes { SameByBytes }
    ensures tidy_is_finer { TidySameIsSame }
{}

/// What [`Command::Lines`](crate::Command) writes of a file is accepted exactly where the file is, with the same document,
/// has the same fault at the same line, and has the same canonical bytes, under each profile and in each edition.
pub fn lines_keep_the_file()
    ensures accepted { LinesKeepAcceptance }
    ensures fault { LinesKeepFault }
    ensures canon { LinesKeepCanon }
{}

/// A file has one digest, files that are the same have the same, and so have a file and its canonical bytes: what
/// [`digest_as`](crate::digest_as) answers depends on nothing that [`same_as`](crate::same_as) does not tell apart.
pub fn same_have_one_digest()
    ensures one_digest { OneDigest }
    ensures same { SameDigest }
    ensures canon { CanonKeepsDigest }
{}
