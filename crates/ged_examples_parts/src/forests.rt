// What a forest tells, place by place.
ghost use Rattle.std.specs.Prelude.{◌<◌};
ghost use Rattle.ged_tree.specs.Trees.{trees_count};

use ged_examples_answers::Answer;
use ged_tree::{Flat, Forest, PayloadView, end_of_all, next_in_run};

/// A line for each place with what the forest tells of its structure.
pub(crate) fn say_forest<F: Forest>(forest: &F, answer: &mut Answer) {
    for place in 0..forest.size() {
        say_place(forest, place, answer);
        say_structure(forest, place, answer);
        answer.say("\n");
    }
}

/// Where a structure stands: its place, level, line and the place past it.
fn say_place<F: Forest>(forest: &F, place: usize, answer: &mut Answer)
    requires { place < trees_count (F.trees forest.now) }
{
    answer.say_number(place as u64);
    answer.say(" level=");
    answer.say_number(u64::from(forest.level(place)));
    answer.say(" after=");
    answer.say_number(forest.after(place) as u64);
    answer.say(" line=");
    answer.say_number(forest.line(place));
}

/// What a structure is: its identifier, tag and payload.
fn say_structure<F: Forest>(forest: &F, place: usize, answer: &mut Answer)
    requires { place < trees_count (F.trees forest.now) }
{
    if let Some(name) = forest.xref(place) {
        answer.say(" xref=");
        answer.say(name);
    }
    let (tag, payload) = forest.tag_and_payload(place);
    answer.say(" tag=");
    answer.say(tag);
    say_payload(answer, payload);
    for number in 0..forest.further(place) {
        answer.say(" further=");
        answer.say(forest.further_line(place, number));
    }
}

/// A payload by its first line; nothing where that is empty.
pub(crate) fn say_payload(answer: &mut Answer, payload: PayloadView<'_>) {
    let (word, text) = match payload {
        PayloadView::Void => (" void", ""),
        PayloadView::Pointer(name) => (" pointer=", name),
        PayloadView::Text("") => ("", ""),
        PayloadView::Text(text) => (" text=", text),
    };
    answer.say(word);
    answer.say(text);
}

/// A line for each place with the rest of the structure's own line or `None`, whether its payload points, and its further lines. Where
/// the own line tells another tag than the structure's, or another answer of `points`, it says so.
pub(crate) fn say_own_lines<F: Forest>(forest: &F, answer: &mut Answer) {
    for place in 0..forest.size() {
        match forest.own_line(place) {
            Some(line) => {
                answer.say(line.rest);
                if line.tag != forest.tag(place) || line.points != forest.points(place) {
                    answer.say(" of another structure");
                }
            }
            None => answer.say("None"),
        }
        if forest.points(place) {
            answer.say(" points");
        }
        say_further(forest, place, answer);
        answer.say("\n");
    }
}

/// For each place the structure's own line, where the table tells that it stands in its file as it is written, or a line with `None`.
pub(crate) fn say_bare_lines(flat: &Flat<'_>, answer: &mut Answer) {
    for place in 0..flat.size() {
        say_bare_line(flat, place, answer);
    }
}

/// The line of one place. Where the table does not tell that it is the structure's only line and no pointer, or where it tells the line at
/// another level too, this is said.
fn say_bare_line(flat: &Flat<'_>, place: usize, answer: &mut Answer)
    requires { place < trees_count flat.now }
{
    let lines = flat.bare_lines();
    let level = flat.level(place);
    match lines.at(place, level) {
        Some((start, end)) => answer.say_bytes(&lines.text()[start..end]),
        None => answer.say("None\n"),
    }
    if lines.sole_at(place, level) != lines.at(place, level) {
        answer.say("and more, or a pointer\n");
    }
    if lines.at(place, level.wrapping_add(1)).is_some() {
        answer.say("and at another level\n");
    }
}

/// The further lines of a payload: all at once where the forest has them so, else one by one, by another word.
fn say_further<F: Forest>(forest: &F, place: usize, answer: &mut Answer)
    requires { place < trees_count (F.trees forest.now) }
{
    if forest.has_further(place) == (forest.further(place) == 0) {
        answer.say(" and not so many lines");
    }
    match forest.further_lines(place) {
        Some(further) => {
            for number in 0..further.count() {
                answer.say(" further=");
                answer.say(further.line(number));
            }
        }
        None => {
            for number in 0..forest.further(place) {
                answer.say(" single=");
                answer.say(forest.further_line(place, number));
            }
        }
    }
}

/// The end of all trees, the place past the first of them, the place past the first tree below that, and the place past
/// the second tree.
pub(crate) fn say_steps<F: Forest>(forest: &F, answer: &mut Answer) {
    let end = end_of_all(forest);
    answer.say("end=");
    answer.say_number(end as u64);
    let Some(after) = next_in_run(forest, 0, end) else {
        return;
    };
    answer.say(" first=");
    answer.say_number(after as u64);
    if let Some(below) = next_in_run(forest, 1, after) {
        answer.say(" below=");
        answer.say_number(below as u64);
    }
    if let Some(second) = next_in_run(forest, after, end) {
        answer.say(" second=");
        answer.say_number(second as u64);
    }
}
