//! The calls of `gedtool` on whole files, for programs in C and for all that can call C. `ffi/c/gedtool.h` declares them.
#![tactic(auto)]

mod answering;
mod comparing;
mod digesting;
mod explaining;
mod exports;
mod respelling;
mod settings;

pub use answering::Ended;
pub use comparing::Compared;
pub use explaining::Part;
pub use exports::{
    gedtool_abi, gedtool_canon, gedtool_check, gedtool_digest, gedtool_explain, gedtool_fault_name,
    gedtool_lines, gedtool_same, gedtool_show, gedtool_version,
};
