// A law of files. Nobody needs to run the function: its contract is proved.
ghost use Rattle.ged_tree.specs.WholeFiles.{HasDocumentOrFault};

use ged_line::{split_pieces, view_line};

/// A file has a document or a first fault.
pub fn document_or_fault_of_file(file: &[u8])
    ensures { HasDocumentOrFault file.now }
{
    for piece in split_pieces(file) {
        match view_line(piece) {
            Ok(_) => {}
            Err(_) => return,
        }
    }
}
