// What a file has to meet, and which canonical form is meant.
ghost use Rattle.std.specs.Prelude.{◌≡◌};
ghost use Rattle.ged_tool.specs.Settings.{profile_of, edition_of};

use ged_canon::Edition;
use ged_schema::Profile;

/// What a file has to meet to be accepted, and the edition of its canonical form.
#[derive(Clone, Copy, Debug, PartialEq, Eq)]
pub struct Settings {
    pub(crate) profile: Profile,
    pub(crate) edition: Edition,
}

impl Settings {
    /// The lenient profile, under which a notice refuses nothing, and the first edition. Takes no memory.
    pub fn new() -> Settings
        ensures profile { profile_of result ≡ Profile.Lenient }
        ensures edition { edition_of result ≡ Edition.First }
    {
        Settings {
            profile: Profile::Lenient,
            edition: Edition::First,
        }
    }

    /// The same with the strict profile, under which each notice is a fault. Takes no memory.
    pub fn strict(self) -> Settings
        ensures profile { profile_of result ≡ Profile.Strict }
        ensures edition { edition_of result ≡ edition_of self }
    {
        Settings {
            profile: Profile::Strict,
            edition: self.edition,
        }
    }

    /// The same with the second edition, which also leaves out the leading zeros of checked dates, ages and counts.
    /// Takes no memory (FamilySearch GEDCOM 7.0, "Integer").
    pub fn second(self) -> Settings
        ensures profile { profile_of result ≡ profile_of self }
        ensures edition { edition_of result ≡ Edition.Second }
    {
        Settings {
            profile: self.profile,
            edition: Edition::Second,
        }
    }

    /// The profile under which files are judged. Takes no memory.
    pub fn profile(&self) -> Profile
        ensures { result ≡ profile_of self.now }
    {
        self.profile
    }

    /// The edition of the canonical form. Takes no memory.
    pub fn edition(&self) -> Edition
        ensures { result ≡ edition_of self.now }
    {
        self.edition
    }
}
