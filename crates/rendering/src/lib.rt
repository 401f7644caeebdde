// Blocks of an image, written into a buffer: the head, and a tree block from a row of a plan.
#![tactic(auto)]

ghost use Rattle.rendering.specs.Laws.{PlansRenderImages};

mod block;
mod draft;
mod fault;
mod head;
mod table;

pub use block::render_block;
pub use fault::BlockFault;
pub use head::render_head;
pub use image::HeadFault;

// The rows of the plan of a set of messages render to the tree blocks of its image.
pub fn plans_render_images()
    ensures { PlansRenderImages }
{}
