// What belongs at a place, in words.
use ged_value::Kind;

/// What the structure tables ask of a payload, as it is said before `belongs here`.
pub(crate) fn wanted(kind: Kind) -> &'static str {
    match kind {
        Kind::Nothing => "nothing",
        Kind::Text | Kind::Free => "a text",
        Kind::EventFlag => "Y or nothing",
        Kind::Integer => "a number such as 3",
        Kind::Version => "7.0",
        Kind::DateValue => "a date such as 3 MAY 1871",
        Kind::DatePeriod => "a period such as FROM 1871 TO 1880",
        Kind::DateExact => "an exact date such as 3 MAY 1871",
        Kind::Time => "a time such as 7:05 or 19:30:00",
        Kind::Age => "an age such as 30y or < 1y 6m",
        Kind::Name => "a name such as Anna /Weber/, with two / or none,",
        Kind::EnumAny => "a word in capital letters, or a number,",
        Kind::SexEnum => "M, F, X or U",
        Kind::PediEnum => "ADOPTED, BIRTH, FOSTER, SEALING or OTHER",
        Kind::StatEnum => "CHALLENGED, DISPROVEN or PROVEN",
        Kind::NameTypeEnum => "AKA, BIRTH, IMMIGRANT, MAIDEN, MARRIED, PROFESSIONAL or OTHER",
        Kind::ResnList =>
            "CONFIDENTIAL, LOCKED or PRIVACY, or several of them with commas between,",
        Kind::ToFam => "a pointer to a FAM record, such as @F1@,",
        Kind::ToIndi => "a pointer to an INDI record, such as @I1@,",
        Kind::ToSubm => "a pointer to a SUBM record, such as @U1@,",
        Kind::ToSnote => "a pointer to an SNOTE record, such as @N1@,",
        Kind::ToSour => "a pointer to a SOUR record, such as @S1@,",
        Kind::ToObje => "a pointer to an OBJE record, such as @O1@,",
    }
}
