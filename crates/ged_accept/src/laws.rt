// Laws of the definitions that the contracts of this crate cite. Nobody needs to run the functions: their contracts are
// proved.
ghost use Rattle.ged_accept.specs.Laws.{OneAccepted, AcceptedIsFaultless, OneFileFault, StrictRefusesNotices};
ghost use Rattle.ged_accept.specs.Laws.{IsAcceptedOrFaulty, LinesFromOne, OneListOfNotices, OneVerdict};

use ged_schema::Profile;
use ged_tree::document_or_fault_of_file;

/// A file is accepted with one document at most, whatever the profile.
pub fn one_accepted()
    ensures { OneAccepted }
{}

/// A file that is accepted has no fault.
pub fn accepted_is_faultless()
    ensures { AcceptedIsFaultless }
{}

/// A file is accepted or has a fault, whatever the profile.
pub fn accepted_or_faulty(profile: Profile, file: &[u8])
    ensures { IsAcceptedOrFaulty profile file.now }
{
    document_or_fault_of_file(file);
}

/// A file has one fault at most, at one line.
pub fn one_file_fault()
    ensures { OneFileFault }
{}

/// The strict profile accepts a file exactly where the lenient one does and its document has no notices.
pub fn strict_refuses_notices()
    ensures { StrictRefusesNotices }
{}

/// A fault of a file has a line from 1 on.
pub fn lines_from_one()
    ensures { LinesFromOne }
{}

/// A document has one list of notices.
pub fn one_list_of_notices()
    ensures { OneListOfNotices }
{}

/// A document that is accepted has one text that tells so.
pub fn one_verdict()
    ensures { OneVerdict }
{}
