// Leading zeros of numbers, and the laws of leaving them out.
ghost use Rattle.std.specs.Prelude.{◌≡◌};
ghost use Rattle.ged_value.specs.Words.{Bytes};
ghost use Rattle.ged_value.specs.Values.{PeriodText, DateValueText};
ghost use Rattle.ged_value.specs.Exact.{ExactText};
ghost use Rattle.ged_value.specs.Ages.{AgeText};
ghost use Rattle.ged_value.specs.Zeros.{has_leading_zero, trim_zeros};
ghost use Rattle.ged_value.specs.ZeroParts.{value_integers, trimmed_value, period_integers, trimmed_period, exact_integers, trimmed_exact, age_integers, trimmed_age, IntegerText, integer_alone};
ghost use Rattle.ged_value.specs.ZeroLaws.{Trimming, LeavingOutZeros};
ghost use Rattle.ged_value.specs.ZeroKinds.{IntegersFitWithoutZeros};

/// Whether a digit follows a 0 at the front of the word.
fn has_leading_zero(word: &str) -> bool
    ensures { result ≡ has_leading_zero word.now }
{
    match word.as_bytes() {
        [b'0', next, ..] => next.is_ascii_digit(),
        _ => false,
    }
}

/// The word without each 0 at its front that a digit follows, as a slice of it: `8w` for `008w`, `0` for `00`. Any other
/// word, as `JAN`, stays, and so does the empty text. Such a 0 has no meaning in an Integer, but it has one in a time, as
/// `07:05`. Takes no memory (FamilySearch GEDCOM 7.0, "Integer").
pub fn trim_zeros(word: &str) -> &str
    ensures { result.now ≡ trim_zeros word.now }
{
    let mut rest = word;
    while has_leading_zero(rest) {
        rest = &rest[1..];
    }
    rest
}

/// A law of the definitions, and does nothing: only zeros go when a word is trimmed, and a number stays the same.
pub fn trimming()
    ensures { (word : Bytes) → Trimming word }
{}

/// A law of the definitions, and does nothing: a text of a kind says the same without leading zeros, be it one that is left
/// out or all of them.
pub fn leaving_out_zeros()
    ensures date_value { LeavingOutZeros DateValueText value_integers trimmed_value }
    ensures period { LeavingOutZeros PeriodText period_integers trimmed_period }
    ensures exact_date { LeavingOutZeros ExactText exact_integers trimmed_exact }
    ensures age { LeavingOutZeros AgeText age_integers trimmed_age }
    ensures integer { LeavingOutZeros IntegerText integer_alone trim_zeros }
{}

/// A law of the definitions, and does nothing: a line whose kind has Integers stays of the kind without leading zeros.
pub fn fitting_without_zeros()
    ensures { IntegersFitWithoutZeros }
{}
