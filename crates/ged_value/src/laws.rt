// Laws of the definitions that the contracts of this crate cite. The functions do nothing: their contracts are proved.
ghost use Rattle.ged_value.specs.Values.{PeriodText, DateValueText};
ghost use Rattle.ged_value.specs.Ages.{AgeText};
ghost use Rattle.ged_value.specs.Exact.{ExactText};
ghost use Rattle.ged_value.specs.Times.{TimeText};
ghost use Rattle.ged_value.specs.Names.{NameText};
ghost use Rattle.ged_value.specs.Restrictions.{RestrictionsText};
ghost use Rattle.ged_value.specs.Laws.{OneReading, TwoTexts, LeavingOut, NothingLeftOut};

/// A text has one reading of a kind at most.
pub fn one_reading()
    ensures date_value { OneReading DateValueText }
    ensures period { OneReading PeriodText }
    ensures exact_date { OneReading ExactText }
    ensures time { OneReading TimeText }
    ensures age { OneReading AgeText }
    ensures name { OneReading NameText }
    ensures restrictions { OneReading RestrictionsText }
{}

/// A date under the Gregorian calendar has two texts, with its word and without.
pub fn two_texts()
    ensures { TwoTexts }
{}

/// A text of a kind says the same when the word of the Gregorian calendar is left out, once or wherever it stands.
pub fn leaving_out()
    ensures date_value { LeavingOut DateValueText }
    ensures period { LeavingOut PeriodText }
    ensures without_the_word { NothingLeftOut }
{}
