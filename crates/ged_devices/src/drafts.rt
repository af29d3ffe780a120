// New files, which are written beside the file whose place they take.
ghost use Rattle.std.specs.Prelude.{◌≡◌, ◌≢◌, ◌+◌, ◌*◌, ◌/◌, ◌%◌, bit_and, None, false, string_bytes, IfOk, IsNone, IsSome, OnOk, OnErr};
ghost use Rattle.std.specs.Io.{WritesAtMost};
ghost use Rattle.ged_devices.specs.Devices.{failed_after};
ghost use Rattle.ged_devices.specs.Paths.{IsBeside, IsFolderOf, is_open_name as is_open_name_of, new_path};

use crate::devices::{Failed, Sink};
use crate::reasons::Reason;
use itoa::Buffer;
use std::alloc::Global;
use std::fs::{self, Metadata, OpenFile, OpenOptions, Permissions};
use std::io::{self, ErrorKind, Write};
use std::os::unix::fs::{MetadataExt, OpenOptionsExt, PermissionsExt};
use std::rt::Files;

/// How many names are tried for a new file.
const TRIES: u64 = 100;

/// Room for a new file's name, in bytes: more than the longest one has.
const NAME_ROOM: usize = 40;

/// Who may read and write a new file that is still to get the permissions of another: who runs the program.
const OWN_MODE: u32 = 0o600;

/// What has become of a new file.
#[derive(Clone, Copy, PartialEq, Eq)]
pub enum Fate {
    /// It was not created yet, or stands beside the file whose place it is to take.
    Pending,
    /// It has taken that file's place.
    Placed,
    /// It was given up: it never was created, or the system was told to remove it.
    Dropped,
}

/// What a new file takes over from the one whose place it is to take.
#[derive(Clone, Copy)]
struct Kept {
    mode: u32,
    group: u32,
}

impl Kept {
    /// The permissions that a new file of a group gets. Where that is another group, its members get none, and all others only those
    /// that the members of the first one had too: so nobody but its new owner may do more than before. The bits by which a file runs as
    /// another user or group are left out.
    ///
    /// The permissions are the last nine bits: three of the owner, three of the group, three of all others.
    fn mode_for(self, group: u32) -> u32
        ensures own { group ≡ self.group → result ≡ self.mode % 512 }
        ensures another { group ≢ self.group
            → result ≡ self.mode / 64 % 8 * 64 + bit_and (self.mode % 8) (self.mode / 8 % 8) }
    {
        let mode = self.mode & 0o777;
        if group == self.group {
            return mode;
        }
        let of_both = mode & (mode >> 3) & 0o007;
        mode & 0o700 | of_both
    }
}

/// A new file of the system, which is to take the place of another. It is created by its first write, or when it is placed if nothing was
/// written, beside the other one, and keeps the permissions of that, but for those of a group that is not its own. Once it is placed or
/// given up nothing more is done to the disk, since another program may have a file of that name by then.
#[derive(Drop)]
pub struct NewFile<'a, F: Files> {
    files: &'a F,
    reason: &'a Reason,
    target: String,
    folder: String,
    path: String,
    kept: Option<Kept>,
    file: Option<F::File>,
    /// What has become of it.
    pub(crate) fate: Fate,
    pub(crate) failed: bool,
    // the folder is that of the file whose place it is to take
    ghost in_folder: { ∥ IsFolderOf (string_bytes target) (string_bytes folder) ∥₁ },
    // once it is created it stands beside that file
    ghost beside: { IsSome file → ∥ IsBeside (string_bytes target) (string_bytes path) ∥₁ },
}

impl<'a, F: Files> NewFile<'a, F> {
    /// A new file for the place of the one of this name. Nothing is created yet. Answers an error where no file can take that
    /// place, and notes why: there is one that is no regular file, or may not be written, or that standard output or standard error goes
    /// to, or no folder for one; or the name is empty, or one of an open file, as `/dev/stdout`; and where no memory was found. Grows.
    pub fn new(
        alloc: Global,
        files: &'a F,
        reason: &'a Reason,
        name: &str,
    ) -> io::Result<NewFile<'a, F>>
        ensures name { OnOk result (is_open_name_of name.now ≡ false) }
        ensures no_failure { IfOk result (λ draft. draft.failed ≡ false) }
        ensures pending { IfOk result (λ draft. draft.fate ≡ Fate.Pending) }
    {
        refuse_name(reason, name)?;
        let target = reason.noting(target_of(alloc, files, name))?;
        let kept = kept_of(files, reason, target.as_str())?;
        let folder = folder_of(alloc, target.as_str())?;
        reason.noting(find_folder(files, folder.as_str()))?;
        let path = String::with_capacity(alloc, folder.len() + NAME_ROOM)?;
        Ok(NewFile {
            files,
            reason,
            target,
            folder,
            path,
            kept,
            file: None,
            fate: Fate::Pending,
            failed: false,
        })
    }

    /// Creates the file under the first name that no other has, with the permissions that it keeps of the file whose place it is to
    /// take.
    fn create(&mut self) -> io::Result<()>
        requires { IsNone self.old.file }
        ensures { (self.new.failed ≡ self.old.failed) × (self.new.fate ≡ self.old.fate) }
    {
        let file = self.open_new()?;
        let given = match self.kept {
            Some(kept) => give_permissions(&file, kept),
            None => Ok(()),
        };
        self.file = Some(file);
        given
    }

    fn open_new(&mut self) -> io::Result<F::File>
        requires { IsNone self.old.file }
        ensures none { IsNone self.new.file }
        ensures stays { (self.new.failed ≡ self.old.failed) × (self.new.fate ≡ self.old.fate) }
        ensures named { OnOk result ∥ IsBeside (string_bytes self.new.target) (string_bytes self.new.path) ∥₁ }
    {
        for number in 0..TRIES {
            self.name(number)?;
            match self.options().open(self.files, self.path.as_str()) {
                Err(error) if error.kind() == ErrorKind::AlreadyExists => {}
                opened => return opened,
            }
        }
        Err(io::Error::from(ErrorKind::AlreadyExists))
    }

    /// The path by which the file is created next. Its room is there, so that no memory is taken.
    fn name(&mut self, number: u64) -> io::Result<()>
        requires { IsNone self.old.file }
        ensures none { IsNone self.new.file }
        ensures stays { (self.new.failed ≡ self.old.failed) × (self.new.fate ≡ self.old.fate) }
        ensures named { OnOk result (string_bytes self.new.path ≡ new_path (string_bytes self.new.folder) number) }
    {
        let mut buffer = Buffer::new();
        self.path.clear();
        self.path.push_str(self.folder.as_str())?;
        self.path.push_str(".gedtool-")?;
        self.path.push_str(buffer.format(number))?;
        self.path.push_str(".new")?;
        Ok(())
    }

    fn options(&self) -> OpenOptions {
        let mut options = OpenOptions::new();
        options.write(true).create_new(true);
        if self.kept.is_some() {
            options.mode(OWN_MODE);
        }
        options
    }

    fn write_some(&mut self, bytes: &[u8]) -> io::Result<usize>
        ensures bound { WritesAtMost result bytes.now }
        ensures stays { (self.new.failed ≡ self.old.failed) × (self.new.fate ≡ self.old.fate) }
    {
        if self.file.is_none() && self.fate == Fate::Pending {
            self.create()?;
        }
        match &mut self.file {
            Some(file) => file.write(bytes),
            None => Ok(0),
        }
    }

    /// Syncs the file, and lets it take the other's place.
    fn rename(&mut self) -> io::Result<()>
        ensures { (self.new.failed ≡ self.old.failed) × (self.new.fate ≡ self.old.fate) }
    {
        if self.file.is_none() {
            self.create()?;
        }
        match &self.file {
            Some(file) => file.sync_all()?,
            None => {}
        }
        fs::rename(self.files, self.path.as_str(), self.target.as_str())
    }

    /// Puts the file in the other's place once it is synced, or gives it up and answers Failed where that can't be. One that was
    /// placed or given up before stays so. Takes no memory.
    pub fn place(&mut self) -> Result<(), Failed>
        ensures failure { self.new.failed ≡ failed_after self.old.failed result }
        ensures placed { OnOk result (self.new.fate ≡ Fate.Placed) }
        ensures dropped { OnErr result (self.new.fate ≡ Fate.Dropped) }
        ensures once { self.old.fate ≢ Fate.Pending → self.new.fate ≡ self.old.fate }
    {
        match self.fate {
            Fate::Pending => self.place_pending(),
            Fate::Placed => Ok(()),
            Fate::Dropped => {
                self.failed = true;
                Err(Failed)
            }
        }
    }

    /// The same for one that was neither placed nor given up.
    fn place_pending(&mut self) -> Result<(), Failed>
        requires { self.old.fate ≡ Fate.Pending }
        ensures failure { self.new.failed ≡ failed_after self.old.failed result }
        ensures placed { OnOk result (self.new.fate ≡ Fate.Placed) }
        ensures dropped { OnErr result (self.new.fate ≡ Fate.Dropped) }
    {
        match self.rename() {
            Ok(()) => {
                // what has its name from now on is not removed
                self.file = None;
                self.fate = Fate::Placed;
                Ok(())
            }
            Err(error) => {
                self.reason.note(&error);
                self.give_up();
                self.failed = true;
                Err(Failed)
            }
        }
    }

    /// Gives the file up. One that was created is removed; if the system refuses that too, nothing more can be done. One that was
    /// placed or given up before is left alone. Takes no memory.
    pub fn give_up(&mut self)
        ensures failure { self.new.failed ≡ self.old.failed }
        ensures dropped { self.old.fate ≡ Fate.Pending → self.new.fate ≡ Fate.Dropped }
        ensures once { self.old.fate ≢ Fate.Pending → self.new.fate ≡ self.old.fate }
    {
        if self.fate != Fate::Pending {
            return;
        }
        if self.file.take().is_some() {
            let _ = fs::remove_file(self.files, self.path.as_str());
        }
        self.fate = Fate::Dropped;
    }
}

impl<F: Files> Sink for NewFile<'_, F> {
    ghost failed = { λ s. s.failed };

    // no contract can say what the system's files hold
    ghost taken = { λ _. None };

    ghost fate = { λ s. s.fate };

    fn write(&mut self, bytes: &[u8]) -> Result<usize, Failed> {
        match self.write_some(bytes) {
            Ok(count) if count > 0 || bytes.is_empty() => Ok(count),
            Ok(_) => {
                self.failed = true;
                Err(Failed)
            }
            Err(error) => {
                self.reason.note(&error);
                self.failed = true;
                Err(Failed)
            }
        }
    }

    fn failed(&self) -> bool {
        self.failed
    }
}

/// Whether a name begins as those do under which the system shows files that are open already.
fn is_open_name(name: &str) -> bool
    ensures { result ≡ is_open_name_of name.now }
{
    let name = name.as_bytes();
    name.starts_with(b"/dev/std") || name.starts_with(b"/dev/fd/") || name.starts_with(b"/proc/")
}

/// Answers an error for a name that no new file can have: the empty one; and one under which the system shows files that are open
/// already, since the file to which it leads is not the one that was meant. Why is noted.
fn refuse_name(reason: &Reason, name: &str) -> io::Result<()>
    ensures { OnOk result (is_open_name_of name.now ≡ false) }
{
    if is_open_name(name) {
        reason.note_words("a name of an open file");
        return Err(io::Error::from(ErrorKind::Unsupported));
    }
    if name.is_empty() {
        return reason.noting(Err(io::Error::from(ErrorKind::NotFound)));
    }
    Ok(())
}

/// Answers an error where there is no folder of this path, of which the empty one is that of the current folder.
fn find_folder<F: Files>(files: &F, folder: &str) -> io::Result<()> {
    let path = if folder.is_empty() { "." } else { folder };
    if fs::metadata(files, path)?.is_dir() {
        return Ok(());
    }
    Err(io::Error::from(ErrorKind::NotADirectory))
}

/// The path of the file that a name is of: where it is of a symbolic link, the file that this leads to.
fn target_of<F: Files>(alloc: Global, files: &F, name: &str) -> io::Result<String> {
    match fs::symlink_metadata(files, name) {
        Ok(metadata) if metadata.is_symlink() => {
            Ok(files.canonicalize(alloc, name)?.into_string())
        }
        _ => Ok(String::from_str(alloc, name)?),
    }
}

/// Gives a new file the permissions that it keeps.
fn give_permissions<F: OpenFile>(file: &F, kept: Kept) -> io::Result<()> {
    let group = file.metadata()?.gid();
    file.set_permissions(Permissions::from_mode(kept.mode_for(group)))
}

/// What a new file keeps of the file of this path, or `None` where there is none. One that is no regular file, may not be written, or is
/// written to as standard output or standard error is an error, so that no device is replaced, no file that is protected, and no log.
/// Why is noted.
fn kept_of<F: Files>(files: &F, reason: &Reason, path: &str) -> io::Result<Option<Kept>> {
    let Some(metadata) = reason.noting(metadata_of(files, path))? else {
        return Ok(None);
    };
    if metadata.is_dir() {
        return reason.noting(Err(io::Error::from(ErrorKind::IsADirectory)));
    }
    if !metadata.is_file() {
        // the system may answer an error of this kind for other reasons
        reason.note_words("not a regular file");
        return Err(io::Error::from(ErrorKind::Unsupported));
    }
    if is_output(files, &metadata) {
        reason.note_words("standard output or standard error goes there");
        return Err(io::Error::from(ErrorKind::Unsupported));
    }
    reason.noting(OpenOptions::new().write(true).open(files, path))?;
    Ok(Some(Kept {
        mode: metadata.permissions().mode(),
        group: metadata.gid(),
    }))
}

/// Whether a file is what standard output or standard error goes to, under whatever name.
fn is_output<F: Files>(files: &F, file: &Metadata) -> bool {
    for name in ["/dev/fd/1", "/dev/fd/2"] {
        if let Ok(open) = fs::metadata(files, name) {
            if open.dev() == file.dev() && open.ino() == file.ino() {
                return true;
            }
        }
    }
    false
}

/// What the system tells of the file of this path, or `None` where there is none.
fn metadata_of<F: Files>(files: &F, path: &str) -> io::Result<Option<Metadata>> {
    match fs::metadata(files, path) {
        Ok(metadata) => Ok(Some(metadata)),
        Err(error) if error.kind() == ErrorKind::NotFound => Ok(None),
        Err(error) => Err(error),
    }
}

/// The folder of the file of this path, with its slash; nothing where the path has none.
fn folder_of(alloc: Global, path: &str) -> io::Result<String>
    ensures { IfOk result (λ folder. IsFolderOf path.now (string_bytes folder)) }
{
    match path.rsplit_once('/') {
        Some((folder, _)) => {
            let mut folder = String::from_str(alloc, folder)?;
            folder.push_str("/")?;
            Ok(folder)
        }
        None => Ok(String::new(alloc)),
    }
}
