// The image of a chapter: its definitions are in specs/, and the function here bears their laws.
#![tactic(auto)]

mod block;
mod head;
mod parts;
mod section;
mod settings;

ghost use Rattle.image.specs.Laws.{HeadReadsBack, TreeBlockReadsBack, ImageReadsBack};

pub use block::{TreeBlock, key_of};
pub use head::{Counts, Head, HeadFault, MARK, VERSION};
pub use parts::{Sections, Slots};
pub use section::SectionFields;
pub use settings::{Setting, Settings, alpha_fits};

// What is written is read back: of a head, of the block of a node, and of the whole image of a set of messages.
pub fn image_reads_back()
    ensures head { HeadReadsBack }
    ensures tree_block { TreeBlockReadsBack }
    ensures image { ImageReadsBack }
{}
