// Laws of what building answers for files, and of their first faults. The functions do nothing: their contracts are proved.
ghost use Rattle.ged_tree.specs.Building.{FaultyFileHasNone, FileFaultIsBuildFault, SameLinesOneDocument};
ghost use Rattle.ged_tree.specs.FaultsStay.{FirstFaultStays};

/// A file that has a fault has no document.
pub fn faulty_file_has_none()
    ensures { FaultyFileHasNone }
{}

/// Files that spell the same lines have the same document: line ends, a byte order mark and blanks after empty values say nothing.
pub fn same_lines_one_document()
    ensures { SameLinesOneDocument }
{}

/// The first fault of a file is that of the lines and the stop that reading it gives: [`crate::flatten`] answers what
/// `build` of ged_document answers for what [`ged_line::read_lines`] reads.
pub fn file_fault_is_build_fault()
    ensures { FileFaultIsBuildFault }
{}

/// The first fault of whole lines is that of the file, whatever comes behind them, unless it is that TRLR is missing.
pub fn first_fault_stays()
    ensures { FirstFaultStays }
{}
