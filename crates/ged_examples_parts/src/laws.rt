// The laws of `ged_line`, `ged_tree` and `ged_document`: functions that do nothing and return, whatever a few of them are handed.
use ged_document::one_place;
use ged_examples_answers::Answer;
use ged_line::{line_or_fault, one_cut, one_line, one_reading, spelling_spells, written_is_read};
use ged_tree::{
    are_lines, begins_on_line, counted_lines, document_or_fault, document_or_fault_of_file,
    faulty_file_fails, faulty_file_has_none, faulty_has_none, file_fault_is_build_fault,
    listed_at_place, next_line, none_shared, one_document, one_fault_in_file, one_first_fault,
    one_for_each_place, one_list, pass_is_document,
};

/// Answers a call on an argument; false where this module has no call of this name.
pub(crate) fn answer(call: &str, argument: &[u8], answer: &mut Answer) -> bool {
    match call {
        "laws_of_lines" => call_laws_of_lines(argument),
        "laws_of_trees" => call_laws_of_trees(argument),
        _ => return false,
    }
    answer.say("returned");
    true
}

fn call_laws_of_lines(piece: &[u8]) {
    line_or_fault(piece);
    one_cut();
    one_line();
    one_reading();
    spelling_spells();
    written_is_read();
}

fn call_laws_of_trees(file: &[u8]) {
    document_or_fault_of_file(file);
    are_lines();
    begins_on_line();
    counted_lines();
    document_or_fault();
    faulty_file_fails();
    faulty_file_has_none();
    faulty_has_none();
    file_fault_is_build_fault();
    listed_at_place();
    next_line();
    none_shared();
    one_document();
    one_fault_in_file();
    one_first_fault();
    one_for_each_place();
    one_list();
    one_place();
    pass_is_document();
}
