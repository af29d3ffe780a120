//! What a run reads from and writes to: readers and writers that tell how they were used, those of the standard library among
//! them, and new files that take the place of others whole or not at all.
#![tactic(auto)]

mod buffered;
mod devices;
mod drafts;
mod input;
mod output;
mod reasons;

pub use buffered::{flush_buffer, put_padded, write_buffered, write_whole};
pub use devices::{Failed, Sink, Source};
pub use drafts::{Fate, NewFile};
pub use input::Input;
pub use output::Output;
pub use reasons::{Noted, Reason};
