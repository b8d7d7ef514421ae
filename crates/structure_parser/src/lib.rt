//! Whole files, read by stages.
//!
//! Seen as: the rows of a file (`specs/Rows.antt`), what the stages say of rows
//! (`specs/Stages.antt`), and the coalgebra that a file denotes (`specs/Reads.antt`).
//! Numbers: lines count from 1; a file has at most 2^26 bytes.
#![tactic(auto)]

mod fault;
mod heads;
mod laws;
mod reading;
mod rows;
mod stage;
mod values;

pub use fault::FileFault;
pub use laws::{faults_refuse_files, files_have_one_fault, files_have_one_reading};
pub use reading::read_file;
