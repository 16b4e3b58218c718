//! Commands that turn files into text: what a command is, and one account of what running it does.
#![tactic(auto)]

pub mod command;
mod conducting;
pub mod ending;
pub mod finish;
pub mod outcome;
pub mod printer;
mod printing;
mod reading;
pub mod running;
pub mod status_line;
pub mod whole_text;
pub mod work;
mod writing;

pub use command::{Command, Output};
pub use ending::{Conclusion, Ending};
pub use finish::{End, Finish};
pub use outcome::{Cause, Outcome, Told};
pub use printer::{LONGEST_PIECE, Printer};
pub use running::run_command;
pub use status_line::conclude;
pub use whole_text::WholeText;
pub use work::{FileRefusal, FileText, Suffix, Target, WorkStop, stop_in_file};
