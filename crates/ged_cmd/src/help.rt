// What help says of the program, of each command and of each argument.

/// The texts of help on the program or a command.
#[derive(Clone, Copy)]
pub(crate) struct Help {
    /// What it does, in a line: the head of short help.
    pub(crate) about: &'static str,
    /// What it is for: the head of long help.
    pub(crate) purpose: &'static str,
    /// Settings, statuses and examples: the end of long help.
    pub(crate) more: &'static str,
}

pub(crate) const PROGRAM: Help = Help {
    about: "Read FamilySearch GEDCOM 7.0 files",
    purpose: "Read FamilySearch GEDCOM 7.0 files: report what is wrong with a file and where, write
the one canonical form of a file, and say whether two files hold the same header and records.",
    more: "Exit status:
  0  The answer was written; of same: the files are the same.
  1  A file has a fault; of same also: the files differ.
  2  A usage error.
  3  A file cannot be read or written, is longer than 1,073,741,824 bytes, or there is
     not enough memory.

Examples:
  gedtool check family.ged            What is wrong with the file, or its notices
  gedtool check --explain family.ged  The same, and in words why, and what to do
  gedtool same one.ged another.ged    Whether the two are the same
  gedtool help canon                  More about a command",
};

pub(crate) const LINES: Help = Help {
    about: "Write the lines of a file in their canonical spelling",
    purpose: "Write the lines of a file in their canonical spelling: a byte order mark first, a line
feed after every line, and no space after a tag without a value. Each line is judged by
itself; nothing else of the file is judged or changed.",
    more: "Exit status:
  0  The answer was written.
  1  A line has a fault.
  2  A usage error.
  3  A file cannot be read or written or is too long, or there is not enough memory.

Examples:
  gedtool lines family.ged > spelled.ged
  gedtool lines -o spelled.ged family.ged",
};

pub(crate) const CHECK: Help = Help {
    about: "Judge a file, and report its notices",
    purpose: "Judge a file: its lines, its structures, its cross-references, and each structure by the
structure tables. Of an accepted file each notice is reported, which is a one-way link
or a tag without _ in front that the tables do not list there, and then 'accepted' is
written. Of any other file the first fault is reported.",
    more: "Profiles:
  A file with notices is accepted. With --strict each notice is a fault.

Exit status:
  0  The file is accepted.
  1  It has a fault.
  2  A usage error.
  3  It cannot be read or is too long, the answer cannot be written, or there is not
     enough memory.

Examples:
  gedtool check family.ged
  gedtool check --strict --explain family.ged
  for f in *.ged; do echo \"$f:\"; gedtool check -- \"$f\"; done",
};

pub(crate) const SHOW: Help = Help {
    about: "Write the level, tag and kind of payload of each structure",
    purpose: "Judge a file as 'check' does, and write a line for each structure of an accepted one: its
level, its tag, and which kind of payload the structure tables require, or '-' where they
have no row for it.",
    more: "Profiles:
  A file with notices is accepted. With --strict each notice is a fault.

Exit status:
  0  The answer was written.
  1  The file has a fault.
  2  A usage error.
  3  A file cannot be read or written or is too long, or there is not enough memory.

Examples:
  gedtool show family.ged
  gedtool show -o family.txt family.ged",
};

pub(crate) const CANON: Help = Help {
    about: "Write a file in its canonical form",
    purpose: "Judge a file as 'check' does, and write an accepted one in its canonical form, which all
files that hold the same header and the same records share: structures in order,
cross-reference identifiers renamed, unused ones left out, lines spelled alike. With
--keep-names identifiers stay as they are, so that files which differ in one have different
forms.",
    more: "Profiles:
  A file with notices is accepted. With --strict each notice is a fault.

Editions:
  The first edition leaves dates, ages and counts as they are, but for the word
  GREGORIAN, which is left out. The second, by --second, also leaves out leading zeros.

Exit status:
  0  The answer was written.
  1  The file has a fault.
  2  A usage error.
  3  A file cannot be read or written or is too long, or there is not enough memory.

Examples:
  gedtool canon family.ged > canonical.ged
  gedtool canon --keep-names -o canonical.ged family.ged",
};

pub(crate) const SAME: Help = Help {
    about: "Say whether two files have the same canonical form",
    purpose: "Judge two files as 'check' does, and write 'same' if they have the same canonical form, and
so hold the same header and the same records; else write 'different'.",
    more: "Profiles:
  A file with notices is accepted. With --strict each notice is a fault.

Editions:
  By default the first editions of the canonical forms are compared, with --second the
  second ones, and with --keep-names forms in which identifiers are as they are.

Exit status:
  0  The files are the same.
  1  They differ, or one has a fault.
  2  A usage error.
  3  A file cannot be read or is too long, the answer cannot be written, or there is not
     enough memory.

Examples:
  gedtool same one.ged another.ged
  gedtool canon one.ged | gedtool same - another.ged",
};

pub(crate) const DIGEST: Help = Help {
    about: "Write the digest of the canonical form of each file",
    purpose: "Judge each file as 'check' does, and write the SHA-256 of its canonical form and its name, in
the format of sha256sum. Files that hold the same header and the same records have the same
digest. A file that is not accepted is reported, and the next one is read.",
    more: "Profiles:
  A file with notices is accepted. With --strict each notice is a fault.

Editions:
  By default the digest is of the first edition of the canonical form, with --second of the
  second.

Exit status:
  0  All digests were written.
  1  A file has a fault.
  2  A usage error.
  3  A file cannot be read or is too long, the answer cannot be written, or there is not
     enough memory, even if another file has a fault.

Examples:
  gedtool digest -- *.ged | sort
  gedtool digest --explain one.ged another.ged",
};

pub(crate) const EXPLAIN: Help = Help {
    about: "Explain a fault, by its number or its name",
    purpose: "Say what a fault means, what usually causes it and what helps, with an example; if no
fault is named, say so of every fault.",
    more: "Exit status:
  0  The explanation was written.
  2  A usage error, such as a number that no fault has.
  3  The answer cannot be written, or there is not enough memory.

Examples:
  gedtool explain 22
  gedtool explain TooMany",
};

// What help says of each argument, in a line.

pub(crate) const OF_FILE: &str = "The file to read; standard input if it is left out or '-'";

pub(crate) const OF_FIRST_FILE: &str = "The first file to read; standard input if it is '-'";

pub(crate) const OF_SECOND_FILE: &str =
    "The second file to read; standard input if it is left out or '-'";

pub(crate) const OF_FILES: &str = "The files to read, one after the other; standard input for '-'";

pub(crate) const OF_FAULT: &str = "The number or the name of a fault; all faults if it is left out";

pub(crate) const OF_STRICT: &str = "Refuse a file that has a notice";

pub(crate) const OF_SECOND: &str = "Use the second edition, which leaves out leading zeros too";

pub(crate) const OF_KEEP_NAMES: &str = "Leave identifiers as they are";

pub(crate) const OF_OUTPUT: &str = "Write the answer to this file, whole or not at all";

pub(crate) const OF_EXPLAIN: &str = "Explain in words, on standard error";
