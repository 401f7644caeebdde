// Entry kinds: what a message is, which are valid, how keys and ranks compare. Paragraphs and index marks, and their states.
#![tactic(auto)]

mod drawn;
mod kind;
mod mark_kind;
mod paragraph_kind;
mod rules;
mod state;

pub use drawn::drawn_before;
pub use kind::EntryKind;
pub use mark_kind::IndexMarks;
pub use paragraph_kind::Paragraphs;
pub use state::{State, UnknownState};
