// Where files are opened by their names, and replaced by new ones.
ghost use Rattle.std.specs.Prelude.{◌≡◌, ◌≢◌, ◌∷◌, [], List, Option, None, false, ⊤, IfErr, IfOk, OnErr, OnOk};
ghost use Rattle.std.specs.Io.KnownBytes.{Keeps};
ghost use Rattle.ged_devices.specs.Devices.{failed_after};
ghost use Rattle.ged_cmd.specs.Program.{IsEmpty, IsFaultOfReplacing};
ghost use Rattle.ged_cmd.specs.Shelves.{Calls, ShelfCall, drafting, opening};

use ged_devices::{Failed, Fate, Input, NewFile, Noted, Reason, Sink, Source};
use ged_tool::Fault;
use std::alloc::{AllocError, Global};
use std::fs::{File, OpenFile};
use std::io;
use std::io::ErrorKind;
use std::rt::Files;

/// Opens files by their names, and puts new ones in their places. It says which files a name opens as far as that can be said.
pub trait Shelf {
    ghost use Rattle.ged_cmd.specs.Program.{Files};

    /// A file that was opened.
    type Device: Source + Drop;

    /// A new file, which is to take the place of another one.
    type Draft: Sink + Drop;

    /// What it has, as far as its files are told apart by that.
    type Stock;

    // what it has, which no call changes
    ghost stock: { Self → Self.Stock };

    // what is known of files by their names
    ghost files: { Self.Stock → Files Self.Device Self.Draft };

    // what was asked of it so far, in order, where it tells that
    ghost calls: { Self → Option (List ShelfCall) };

    /// The reason of the last failure of a device, in words; empty where none is known.
    fn reason(&self) -> &'static str;

    /// Opens a file, or answers Failed where it can't be opened.
    fn open(&mut self, name: &str) -> Result<Self::Device, Failed>
        ensures same { stock self.new ≡ stock self.old }
        ensures called { Calls (calls self.old) (calls self.new) (opening name.now ∷ []) }
        ensures opened { IfOk result ((files (stock self.old)).opens name.now) }
        ensures unread { IfOk result (λ device. Self.Device.reads device ≡ 0) }
        ensures no_failure { IfOk result (λ device. Self.Device.failed device ≡ false) }
        ensures refused { OnErr result ((files (stock self.old)).refuses name.now) };

    /// Prepares a new file that is to take the place of the one of this name, where there is one. Nothing is created before it
    /// is written to or placed. The fault is WriteFailed where the file of this name can't be replaced, or Memory.
    fn draft(&mut self, alloc: Global, name: &str) -> Result<Self::Draft, Fault>
        ensures same { stock self.new ≡ stock self.old }
        ensures called { Calls (calls self.old) (calls self.new) (drafting name.now ∷ []) }
        ensures drafted { IfOk result ((files (stock self.old)).drafts name.now) }
        ensures empty { IfOk result (λ draft. IsEmpty (Self.Draft.taken draft)) }
        ensures pending { IfOk result (λ draft. Self.Draft.fate draft ≡ Fate.Pending) }
        ensures no_failure { IfOk result (λ draft. Self.Draft.failed draft ≡ false) }
        ensures withheld { IfErr result ((files (stock self.old)).withholds name.now) }
        ensures fault { IfErr result IsFaultOfReplacing };

    /// Puts a new file in its place, with all that was written to it, or gives it up and answers Failed where that can't be.
    fn place(&self, draft: &mut Self::Draft) -> Result<(), Failed>
        ensures failure { Self.Draft.failed draft.new ≡ failed_after (Self.Draft.failed draft.old) result }
        ensures bytes { Keeps (Self.Draft.taken draft.old) (Self.Draft.taken draft.new) }
        ensures placed { OnOk result (Self.Draft.fate draft.new ≡ Fate.Placed) }
        ensures dropped { OnErr result (Self.Draft.fate draft.new ≡ Fate.Dropped) }
        ensures once { Self.Draft.fate draft.old ≢ Fate.Pending → Self.Draft.fate draft.new ≡ Self.Draft.fate draft.old };

    /// Gives a new file up, so that the other one stays as it is. One that was placed before stays in its place.
    fn give_up(&self, draft: &mut Self::Draft)
        ensures failure { Self.Draft.failed draft.new ≡ Self.Draft.failed draft.old }
        ensures bytes { Self.Draft.taken draft.new ≡ Self.Draft.taken draft.old }
        ensures dropped { Self.Draft.fate draft.old ≡ Fate.Pending → Self.Draft.fate draft.new ≡ Fate.Dropped }
        ensures once { Self.Draft.fate draft.old ≢ Fate.Pending → Self.Draft.fate draft.new ≡ Self.Draft.fate draft.old };
}

/// The files of the system. No contract can say what they hold.
#[derive(Drop)]
pub struct Disk<'a, F> {
    files: &'a F,
    reason: &'a Reason,
}

impl<'a, F: Files> Disk<'a, F> {
    /// All files that the handle gives leave to open. Why one fails is noted. Takes no memory.
    pub fn new(files: &'a F, reason: &'a Reason) -> Disk<'a, F> {
        Disk { files, reason }
    }
}

impl<'a, F: Files> Shelf for Disk<'a, F> {
    type Device = Input<Noted<'a, F::File>>;

    type Draft = NewFile<'a, F>;

    type Stock = ();

    ghost stock = { λ _. tt };

    ghost files = { λ _. record {
      opens = λ _ _. ⊤;
      refuses = λ _. ⊤;
      drafts = λ _ _. ⊤;
      withholds = λ _ _. ⊤;
    } };

    ghost calls = { λ _. None };

    fn reason(&self) -> &'static str {
        self.reason.words()
    }

    fn open(&mut self, name: &str) -> Result<Input<Noted<'a, F::File>>, Failed> {
        match File::open(self.files, name) {
            Ok(file) => {
                let size = match file.metadata() {
                    Ok(metadata) => metadata.len(),
                    Err(_) => 0,
                };
                Ok(Input::expecting(Noted::new(file, self.reason), size))
            }
            Err(error) => {
                self.reason.note(&error);
                Err(Failed)
            }
        }
    }

    fn draft(&mut self, alloc: Global, name: &str) -> Result<NewFile<'a, F>, Fault> {
        match NewFile::new(alloc, self.files, self.reason, name) {
            Ok(draft) => Ok(draft),
            Err(error) => Err(fault_of(&error)),
        }
    }

    fn place(&self, draft: &mut NewFile<'a, F>) -> Result<(), Failed> {
        draft.place()
    }

    fn give_up(&self, draft: &mut NewFile<'a, F>) {
        draft.give_up();
    }
}

/// The fault of a file that can't be replaced.
fn fault_of(error: &io::Error) -> Fault
    ensures { IsFaultOfReplacing result }
{
    match error.kind() {
        ErrorKind::OutOfMemory => Fault::Memory(AllocError),
        _ => Fault::WriteFailed,
    }
}
