// Laws of sets of messages and of their images: the functions here bear them, and do nothing.
#![tactic(auto)]

ghost use Rattle.image_laws.specs.Arriving.{OrderDoesNotMatter, SetFromItsMessages};
ghost use Rattle.image_laws.specs.Formed.{BlocksAreWellFormed};
ghost use Rattle.image_laws.specs.Walking.{WalksFollowTheTree};

// A block of the tree that a set of messages makes is never refused as malformed, at its own place among the blocks.
pub fn blocks_are_well_formed()
    ensures { BlocksAreWellFormed }
{}

// A step of a walk for a key, read off the bytes of a block, does what the tree says: the message found, the section entered,
// where it goes on, and what has been left behind.
pub fn walks_follow_the_tree()
    ensures { WalksFollowTheTree }
{}

// Valid messages, put into a set one after the other, leave the same set in whatever order they come, those with one key among
// them too. So a set can be put together again from its messages in any order.
pub fn order_does_not_matter()
    ensures same { OrderDoesNotMatter }
    ensures whole { SetFromItsMessages }
{}
