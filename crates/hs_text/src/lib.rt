//! The texts of the program: the reader of pattern files, and the lines that are written. `specs/PatternFile.antt` says
//! which lists a file is, and which line is its first bad one; `specs/ReportLines.antt`, `specs/RefusalLines.antt` and
//! `specs/AnswerLines.antt` say the lines.
#![tactic(auto)]

mod answer_lines;
pub mod command_laws;
mod command_lines;
mod commands;
mod cut;
mod fault;
mod flag;
pub mod laws;
mod line;
mod line_buffer;
mod list;
mod number;
mod parameter;
mod refusal_lines;
mod refusal_values;
mod reply_lines;
mod report_lines;

pub use answer_lines::{accepted_line, compiled_line, form_line, info_lines, size_lines};
pub use command_lines::command;
pub use commands::{Command, Verb};
pub use fault::ListFault;
pub use line_buffer::LINE_LEN;
pub use list::read_list;
pub use refusal_lines::refusal_line;
pub use reply_lines::{Reply, ScriptFault, Word, reply_line, script_fault_line};
pub use report_lines::{NAME_LEN, end_line, report_line};
