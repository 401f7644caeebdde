// Messages as typed values: a paragraph and an index mark, each with its bytes.
#![tactic(auto)]

mod mark_message;
mod message;
mod paragraph_message;
mod valid;

pub use kinds::State;
pub use mark_message::IndexMark;
pub use message::Message;
pub use paragraph_message::Paragraph;
pub use valid::is_message;

#[cfg(test)]
mod tests;
