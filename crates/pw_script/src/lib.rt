//! Scripts: lines that ask for processors to go idle, to wake, or to change a state or a limit; and the
//! text of what came of them.
#![tactic(auto)]

mod asking;
mod index;
mod kind;
mod known;
mod laws;
mod line;
mod parsing;
mod paths;
mod printing;
mod script;
mod text_laws;
mod text_values;
mod wish;
mod words;

pub use laws::{
    entries_come_from_texts, entries_have_lines, functions_tell_lines, lines_can_be_asked,
    serial_histories_are_lawful, texts_tell_lines,
};
pub use parsing::parse;
pub use paths::path_texts;
pub use printing::{print_history, print_known};
pub use pw_text::{LineWhy, ScriptFault};
pub use script::{Line, Script};
pub use text_laws::{
    beginnings_are_starts, beginnings_complete, lines_follow, texts_of_scripts_tell,
    texts_tell_histories,
};
pub use text_values::{entries_are_narrow, plans_have_segments, text_tells_history};
pub use wish::{Verb, Wish};
