// The structure tables: the rows of each context.
ghost use Rattle.std.specs.Prelude.{◌≡◌, ◌≤◌, length, map};
ghost use Rattle.ged_schema.specs.Rows.{as_row};
ghost use Rattle.ged_schema.specs.Tables.{rows as rows_of};

mod families;
mod header;
mod persons;
mod shared;

use crate::context::Context;
use crate::rule::Rule;
use families::{FAM, FAM_AGE, FAM_FACT, FAM_NAMED};
use header::{DATE_TIME, FILE, GEDC, HEAD, HEAD_DATA, HEAD_PLAC, HEAD_SOUR, SCHMA};
use persons::{
    ADOP_FAMC, INDI, INDI_ADOP, INDI_BIRTH, INDI_FACT, INDI_FAMC, INDI_NAMED, NAME_MORE, NAME_TRAN,
};
use shared::{
    ASSO, CHAN, CITE, CITE_DATA, CREA, DATE_MORE, NON_EVENT, NOTE, NOTES, NOTHING, PHRASE, TYPED,
};

/// The rows of a context, in the order in which their counts are judged. There are none in `Leaf` and in `Unchecked`.
/// Takes no memory (FamilySearch GEDCOM 7.0, "Structure Organization").
#[tactic(auto, unfolding(crate::specs::Tables::rows))]
pub fn rows(context: Context) -> &'static [Rule]
    ensures rows { map as_row result.now ≡ rows_of context }
    ensures few { length result.now ≤ 64 }
{
    match context {
        Context::File => &FILE,
        Context::Head => &HEAD,
        Context::Gedc => &GEDC,
        Context::Schma => &SCHMA,
        Context::HeadSour => &HEAD_SOUR,
        Context::HeadData => &HEAD_DATA,
        Context::HeadPlac => &HEAD_PLAC,
        Context::DateTime => &DATE_TIME,
        Context::DateMore => &DATE_MORE,
        Context::Phrase => &PHRASE,
        Context::Typed => &TYPED,
        Context::Indi => &INDI,
        Context::IndiFact => &INDI_FACT,
        Context::IndiNamed => &INDI_NAMED,
        Context::IndiBirth => &INDI_BIRTH,
        Context::IndiAdop => &INDI_ADOP,
        Context::AdopFamc => &ADOP_FAMC,
        Context::IndiFamc => &INDI_FAMC,
        Context::Notes => &NOTES,
        Context::NameMore => &NAME_MORE,
        Context::NameTran => &NAME_TRAN,
        Context::Fam => &FAM,
        Context::FamFact => &FAM_FACT,
        Context::FamNamed => &FAM_NAMED,
        Context::FamAge => &FAM_AGE,
        Context::NonEvent => &NON_EVENT,
        Context::Chan => &CHAN,
        Context::Crea => &CREA,
        Context::Asso => &ASSO,
        Context::Cite => &CITE,
        Context::CiteData => &CITE_DATA,
        Context::Note => &NOTE,
        Context::Leaf | Context::Unchecked => &NOTHING,
    }
}
