// The row of a tag in a context.
ghost use Rattle.std.specs.Prelude.{◌≡◌, option_map};
ghost use Rattle.std.specs.Option.{option_copied};
ghost use Rattle.ged_schema.specs.Rows.{as_row};
ghost use Rattle.ged_schema.specs.Tables.{row, below_row};

use crate::context::Context;
use crate::rule::Rule;
use crate::slots::{rule_among, seed_of};
use crate::tables::rows;
use ged_line::Tag;

/// The row of a tag in a context, or `None` where the context has none for it. Takes no memory
/// (FamilySearch GEDCOM 7.0, "Structure Organization").
pub fn lookup(context: Context, tag: &Tag) -> Option<Rule>
    ensures { option_map as_row result ≡ row context tag.now }
{
    lookup_name(context, tag.as_str())
}

/// What [`lookup`] answers for the tag that a text is, and `None` for any other text. Takes no memory.
#[inline(always)]
pub fn lookup_name(context: Context, name: &str) -> Option<Rule>
    ensures { option_map as_row result ≡ row context name.now }
{
    rule_among(rows(context), seed_of(context), name).copied()
}

/// The context below a structure with this row, or with none: there nothing is asked. Takes no memory.
#[inline(always)]
pub fn context_below(rule: Option<&Rule>) -> Context
    ensures { result ≡ below_row (option_map as_row (option_copied rule.entry)) }
{
    match rule {
        Some(rule) => rule.below,
        None => Context::Unchecked,
    }
}
