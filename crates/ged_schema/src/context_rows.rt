// The rows of one context, at hand for many look-ups.
ghost use Rattle.std.specs.Prelude.{◌≡◌, option_map};
ghost use Rattle.std.specs.Option.{option_copied};
ghost use Rattle.ged_schema.specs.Rows.{as_row};
ghost use Rattle.ged_schema.specs.Tables.{row};

use crate::context::Context;
use crate::rule::Rule;
use crate::slots::{rule_among, seed_of};
use crate::tables::rows;
use std::marker::Model;

/// The rows of a context, for the tags of many structures that stand in it. Contracts see it as the context.
#[derive(Drop)]
pub struct ContextRows {
    context: Context,
    rules: &'static [Rule],
    seed: usize,
}

impl Model for ContextRows {
    ghost use Rattle.std.specs.Prelude.{◌≡◌, ◌<◌, ◌≤◌, true, length, map};
    ghost use Rattle.ged_schema.specs.Rows.{as_row};
    ghost use Rattle.ged_schema.specs.Tables.{rows};
    ghost use Rattle.ged_schema.specs.Slots.{are_numbered, kept_number};
    ghost use Rattle.ged_schema.specs.declared.context.Context.{Context as AnyContext};

    ghost Value = { AnyContext };

    ghost view = { λ r. r.context };

    ghost invariant = { λ r. (map as_row r.rules.now ≡ rows r.context) × (length r.rules.now ≤ 64) × (r.seed < 512) × (are_numbered (kept_number r.seed) 0 (rows r.context) ≡ true) };
}

impl ContextRows {
    /// The rows of a context. Takes no memory (FamilySearch GEDCOM 7.0, "Structure Organization").
    #[inline(always)]
    pub fn of(context: Context) -> ContextRows
        ensures { result ≡ context }
    {
        ContextRows {
            context,
            rules: rows(context),
            seed: seed_of(context),
        }
    }

    /// The row of the tag that a text is, and `None` for any other text: what [`crate::lookup_name`] answers for the
    /// context. Takes no memory.
    #[inline(always)]
    pub fn row(&self, name: &str) -> Option<&'static Rule>
        ensures { option_map as_row (option_copied result) ≡ row self.now name.now }
    {
        rule_among(self.rules, self.seed, name)
    }
}
