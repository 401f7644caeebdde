// Chapters: what their calls are is defined in specs/; the refusals and answers are here, with the worked examples.
#![tactic(auto)]

mod answer;
mod fault;

ghost use Rattle.chapter.specs.Examples.{WorkedExamples};

pub use answer::Outcome;
pub use fault::ChapterFault;

// The worked examples, all together: chapters filled by the definitions of the calls, and what the calls then answer.
pub fn worked_examples()
    ensures { WorkedExamples }
{}
