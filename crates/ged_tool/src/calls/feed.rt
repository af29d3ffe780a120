// Files that come piece by piece.
ghost use Rattle.std.specs.Prelude.{◌≡◌, ◌++◌, ℕ, [], None, IfSome, IfOk, IfErr, IsErrOf};
ghost use Rattle.ged_schema.specs.declared.profile.Profile.{Profile};
ghost use Rattle.ged_faults.specs.declared.faults.FileFault.{FileFault};
ghost use Rattle.ged_tool.specs.Settings.{profile_of};
ghost use Rattle.ged_accept.specs.Accepted.{IsAccepted, FileFaultAt, IsRefusal};
ghost use Rattle.ged_tool.specs.Fed.{WholeLinesFaultAt, RefusesPiece};

use crate::calls::accept::accept_as;
use crate::calls::judged_lines::Judged;
use crate::settings::Settings;
use ged_accept::Accepted;
use ged_faults::Fault;
use ged_line::split_whole;
use std::alloc::Global;
use std::marker::Model;

/// A file that comes piece by piece, of any lengths. A fault of its lines is told as soon as a line with one is whole.
/// Contracts see the bytes that were taken in, and the fault that was told.
#[derive(Drop)]
pub struct Feed {
    bytes: Vec<u8>,
    /// How long the whole lines are: they end with the last CR or LF.
    whole: usize,
    judged: Judged,
    told: Option<Fault>,
}

impl Model for Feed {
    ghost use Rattle.std.specs.Prelude.{MatchOption};
    ghost use Rattle.ged_tool.specs.Fed.{Fed};
    ghost use Rattle.ged_tool.specs.Judged.{IsReady, IsToldOf};

    ghost Value = { Fed };

    ghost view = { λ f. record { bytes = f.bytes.items; told = f.told } };

    ghost invariant = { λ f. MatchOption f.told (IsReady f.bytes.items f.whole f.judged) (IsToldOf f.bytes.items) };
}

impl Feed {
    /// A file of which nothing has come. Takes no memory.
    pub fn new(alloc: Global) -> Feed
        ensures bytes { result.bytes ≡ [] }
        ensures told { result.told ≡ None }
    {
        Feed {
            bytes: Vec::new(alloc),
            whole: 0,
            judged: Judged::new(),
            told: None,
        }
    }

    /// Takes in the next bytes of the file.
    ///
    /// A line is whole once its CR or LF has come; a LF that comes next after a CR, also in a later piece, belongs to it.
    /// As soon as the whole lines have one of the faults from `NotUtf8` to `AfterTrailer`, answers InFile with the first:
    /// it is the file's, whatever follows. The bytes of that piece are taken in. From then on each call answers this
    /// fault, takes nothing in and takes no memory. Grows; after Memory the feed is as before
    /// (FamilySearch GEDCOM 7.0, "Lines" and "Structures").
    pub fn piece(&mut self, piece: &[u8]) -> Result<(), Fault>
        // A fault that was told is told again, and nothing is taken in.
        ensures again { IfSome self.old.told (λ fault. IsErrOf result fault × (self.new ≡ self.old)) }

        // The answer is Ok where no whole line has a fault with the piece, and that fault where one has; both take it in.
        ensures takes { IfOk result (λ _. self.new ≡ record { bytes = self.old.bytes ++ piece.now; told = None }) }
        ensures faultless { IfOk result (λ _. (line : ℕ) (kind : FileFault) → ¬ (WholeLinesFaultAt self.new.bytes line kind)) }
        ensures refuses { self.old.told ≡ None → IfErr result (RefusesPiece self.old piece.now self.new) }
    {
        if let Some(fault) = self.told {
            return Err(fault);
        }
        if let Err(error) = self.bytes.extend_from_slice(piece) {
            return Err(Fault::Memory(error));
        }
        // What waited has no line end, so the new bytes alone are searched for one.
        let (ended, waiting) = split_whole(piece);
        if ended.is_empty() {
            return Ok(());
        }
        let whole = self.bytes.len() - waiting.len();
        let (front, more) = self.bytes[..whole].split_at(self.whole);
        if let Err(at) = self.judged.take(front, more) {
            let fault = Fault::InFile {
                line: at.line,
                kind: at.fault.into(),
            };
            self.told = Some(fault);
            return Err(fault);
        }
        self.whole = whole;
        Ok(())
    }

    /// What [`Feed::finish_as`] answers under the lenient profile. Grows.
    pub fn finish(&self, alloc: Global) -> Result<Accepted<'_>, Fault>
        ensures accepted { IfOk result (λ accepted. IsAccepted Profile.Lenient self.now.bytes accepted) }
        ensures refused { IfErr result (IsRefusal (FileFaultAt Profile.Lenient self.now.bytes)) }
        ensures told { IfSome self.now.told (λ fault. IsErrOf result fault) }
    {
        self.finish_as(alloc, Settings::new())
    }

    /// Judges the bytes that were taken in so far as a whole file: their document, where they are accepted under the profile, or why
    /// not, as [`accept_as`] answers. More pieces may follow, and the call may be made again.
    ///
    /// Where a fault was told, answers this fault and takes no memory. Grows
    /// (FamilySearch GEDCOM 7.0, "Lines", "Structures" and "Data types").
    pub fn finish_as(&self, alloc: Global, settings: Settings) -> Result<Accepted<'_>, Fault>
        ensures accepted { IfOk result (λ accepted. IsAccepted (profile_of settings) self.now.bytes accepted) }
        ensures refused { IfErr result (IsRefusal (FileFaultAt (profile_of settings) self.now.bytes)) }
        ensures told { IfSome self.now.told (λ fault. IsErrOf result fault) }
    {
        match self.told {
            Some(fault) => Err(fault),
            None => accept_as(alloc, settings, &self.bytes),
        }
    }
}
