// The lines that explain the notices of one file.
ghost use Rattle.std.specs.Prelude.{◌≡◌, IfOk, string_bytes};
ghost use Rattle.ged_explain.specs.Openings.{ShowsLine};

use crate::explaining::{explain_site, fault_of};
use crate::path::{Step, Walk};
use crate::pieces::PieceFinder;
use crate::site::{Record, Site};
use ged_link::{Index, Notice};
use ged_tree::Forest;
use std::alloc::{AllocError, Global};
use std::marker::Model;

/// Explains notices of an accepted file as [`crate::explain_notice`] does, for a caller that has many of them. A notice that stands
/// behind the last one is explained by reading on from there; for any other the file is read from its beginning, so that the order
/// changes no text. Contracts see the file's bytes.
#[derive(Drop)]
pub struct Explainer<'a, F> {
    pieces: PieceFinder<'a>,
    walk: Walk<'a>,
    forest: &'a F,
    index: &'a Index,
}

impl<'a, F> Model for Explainer<'a, F> {
    ghost use Rattle.ged_line.specs.Bytes.{Bytes};

    ghost Value = { Bytes };

    ghost view = { λ e. e.pieces };
}

impl<'a, F: Forest> Explainer<'a, F> {
    /// An explainer of the file with these bytes: the forest has to be its document, and the index that document's. Of any others the
    /// texts have no meaning. Takes no memory.
    pub fn new(bytes: &'a [u8], forest: &'a F, index: &'a Index) -> Explainer<'a, F>
        ensures { result ≡ bytes.now }
    {
        Explainer {
            pieces: PieceFinder::new(bytes),
            walk: Walk::new(bytes),
            forest,
            index,
        }
    }

    /// The lines that explain a notice, as [`crate::explain_notice`] gives them. Grows as that does.
    pub fn explain(
        &mut self,
        alloc: Global,
        notice: &Notice,
        name: &str,
    ) -> Result<String, AllocError>
        ensures same { self.new ≡ self.old }
        ensures shows { IfOk result (λ text. ShowsLine name.now self.old notice.now.line (string_bytes text)) }
    {
        let line = notice.line;
        let piece = self.pieces.find(line);
        self.walk.go_to(line);
        let path = self.walk.path();
        let site = Site {
            bytes: self.pieces.bytes(),
            line,
            piece,
            path,
            known: record_led_to(self.forest, self.index, path.last()),
        };
        explain_site(alloc, &site, fault_of(notice.kind), name)
    }
}

/// The record at which a line points.
fn record_led_to<'a, F: Forest>(
    forest: &'a F,
    index: &Index,
    step: Option<Step<'a>>,
) -> Option<Record<'a>> {
    let name = step?.pointer()?;
    let place = index.place_of(name)?;
    if place >= forest.size() {
        return None;
    }
    Some(Record {
        line: forest.line(place),
        xref: name,
        tag: forest.tag(place),
    })
}
