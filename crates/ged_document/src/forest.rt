// The structures of a document of nodes by their places.
ghost use Rattle.std.specs.Prelude.{◌<◌, Some};
ghost use Rattle.ged_tree.specs.Trees.{further_lines};
ghost use Rattle.ged_tree.specs.Places.{structure_at, place_after, line_at};

use crate::document::Document;
use crate::walks::count;
use ged_tree::{Forest, PayloadView};

#[tactic(auto, using(crate::proofs::Steps::after_fits), unfolding(ged_tree::specs::Places::structure_at, ged_tree::specs::Places::below_at, ged_tree::specs::Places::place_after))]
impl Forest for Document {
    ghost trees = { λ document. document };

    fn size(&self) -> usize {
        self.count()
    }

    fn level(&self, place: usize) -> u8 {
        self.find(place).level
    }

    fn after(&self, place: usize) -> usize {
        let node = self.find(place).node;
        place + 1 + count(node.children.as_slice())
    }

    fn line(&self, place: usize) -> u64 {
        self.line_at(place)
    }

    fn tag(&self, place: usize) -> &str {
        let node = self.find(place).node;
        node.tag.as_str()
    }

    fn xref(&self, place: usize) -> Option<&str> {
        match self.find(place).xref {
            Some(name) => Some(name.as_str()),
            None => None,
        }
    }

    fn payload(&self, place: usize) -> PayloadView<'_> {
        let node = self.find(place).node;
        node.payload.view()
    }

    fn further(&self, place: usize) -> usize {
        let node = self.find(place).node;
        node.payload.further_lines().len()
    }

    fn further_line(&self, place: usize, number: usize) -> &str {
        let node = self.find(place).node;
        node.payload.further_lines()[number].as_str()
    }
}
