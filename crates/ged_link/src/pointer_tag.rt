// What the tags of pointers tell.
ghost use Rattle.std.specs.Prelude.{◌≡◌, ◌<◌, None, Some, cond, option_map};
ghost use Rattle.std.specs.Str.{bytes_eq};
ghost use Rattle.ged_line.specs.Bytes.{Bytes};
ghost use Rattle.ged_link.specs.LedByTags.{led_by};
ghost use Rattle.ged_link.specs.RecordTypes.{IsTypeOf, record_tag};
ghost use Rattle.ged_link.specs.inner.LinkWalks.{role_under as role_under_tag};
ghost use Rattle.ged_link.specs.inner.PointerTags.{IsTold, tag_like, code_of, told_by};

use crate::pairs::Role;
use crate::record_type::RecordType;
use ged_line::is_same_tag;

/// The tags of pointers, by what they tell: the type of the records that they lead to, and the role of a person under a record.
#[derive(Clone, Copy)]
pub(crate) enum PointerTag {
    /// Any tag that tells nothing.
    Other,
    /// FAMC.
    Famc,
    /// FAMS.
    Fams,
    /// HUSB or WIFE.
    Spouse,
    /// CHIL.
    Chil,
    /// ASSO or ALIA.
    Person,
    /// SOUR.
    Sour,
    /// OBJE.
    Obje,
    /// SNOTE.
    Snote,
    /// SUBM, ANCI or DESI.
    Subm,
}

/// A role, where a record of which this type is known is of the one that the role stands under.
#[inline(always)]
#[tactic(auto, using(crate::proofs::TagLemmas::typed_so, crate::proofs::TagLemmas::typed_not))]
fn role_in(known: Option<RecordType>, wanted: RecordType, role: Role) -> Option<Role>
    ensures { (at : Bytes) → IsTypeOf known at → result ≡ cond (bytes_eq at (record_tag wanted)) (Some role) None }
{
    if known == Some(wanted) {
        Some(role)
    } else {
        None
    }
}

impl PointerTag {
    /// What a tag tells. The most frequent tags come first.
    #[inline(always)]
    pub(crate) fn of(tag: &str) -> PointerTag
        ensures { IsTold result tag.now }
    {
        if is_same_tag(tag, "SOUR") {
            PointerTag::Sour
        } else if is_same_tag(tag, "FAMC") {
            PointerTag::Famc
        } else if is_same_tag(tag, "FAMS") {
            PointerTag::Fams
        } else if is_same_tag(tag, "CHIL") {
            PointerTag::Chil
        } else if is_same_tag(tag, "HUSB") || is_same_tag(tag, "WIFE") {
            PointerTag::Spouse
        } else if is_same_tag(tag, "ASSO") || is_same_tag(tag, "ALIA") {
            PointerTag::Person
        } else if is_same_tag(tag, "SUBM") || is_same_tag(tag, "ANCI") || is_same_tag(tag, "DESI") {
            PointerTag::Subm
        } else if is_same_tag(tag, "SNOTE") {
            PointerTag::Snote
        } else if is_same_tag(tag, "OBJE") {
            PointerTag::Obje
        } else {
            PointerTag::Other
        }
    }

    /// The type of the records that a pointer with such a tag leads to, or `None` where its tag alone does not say it.
    #[inline(always)]
    pub(crate) fn type_led(self) -> Option<RecordType>
        ensures { option_map record_tag result ≡ led_by (tag_like self) }
    {
        match self {
            PointerTag::Famc | PointerTag::Fams => Some(RecordType::Fam),
            PointerTag::Spouse | PointerTag::Chil | PointerTag::Person => Some(RecordType::Indi),
            PointerTag::Sour => Some(RecordType::Sour),
            PointerTag::Obje => Some(RecordType::Obje),
            PointerTag::Snote => Some(RecordType::Snote),
            PointerTag::Subm => Some(RecordType::Subm),
            PointerTag::Other => None,
        }
    }

    /// The role of the person that a structure with such a tag tells, directly under a record of which this type is known.
    #[inline(always)]
    pub(crate) fn role_under(self, known: Option<RecordType>) -> Option<Role>
        ensures { (at : Bytes) → IsTypeOf known at → result ≡ role_under_tag at (tag_like self) }
    {
        match self {
            PointerTag::Fams => role_in(known, RecordType::Indi, Role::Partner),
            PointerTag::Famc => role_in(known, RecordType::Indi, Role::Child),
            PointerTag::Spouse => role_in(known, RecordType::Fam, Role::Partner),
            PointerTag::Chil => role_in(known, RecordType::Fam, Role::Child),
            _ => None,
        }
    }

    /// The number of what a tag tells, in four bits.
    #[inline(always)]
    pub(crate) fn code(self) -> u64
        ensures code { result ≡ code_of self }
        ensures small { result < 16 }
    {
        match self {
            PointerTag::Other => 0,
            PointerTag::Famc => 1,
            PointerTag::Fams => 2,
            PointerTag::Spouse => 3,
            PointerTag::Chil => 4,
            PointerTag::Person => 5,
            PointerTag::Sour => 6,
            PointerTag::Obje => 7,
            PointerTag::Snote => 8,
            PointerTag::Subm => 9,
        }
    }

    /// What has this number, or [`PointerTag::Other`] where nothing has it.
    #[inline(always)]
    pub(crate) fn of_code(code: u64) -> PointerTag
        ensures { result ≡ told_by code }
    {
        match code {
            1 => PointerTag::Famc,
            2 => PointerTag::Fams,
            3 => PointerTag::Spouse,
            4 => PointerTag::Chil,
            5 => PointerTag::Person,
            6 => PointerTag::Sour,
            7 => PointerTag::Obje,
            8 => PointerTag::Snote,
            9 => PointerTag::Subm,
            _ => PointerTag::Other,
        }
    }
}
