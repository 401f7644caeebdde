// The block search tree: its definition is in specs/Tree.antt, and the functions here bear its laws.
#![tactic(auto)]

ghost use Rattle.tree.specs.Laws.{TreeIsLawful, TreeFollowsMap};

// For elements of any type: what is true of every tree over them.
pub fn tree_is_lawful<T>()
    ensures { TreeIsLawful T }
{}

// A tree depends on its elements only by the order in which they are drawn.
pub fn tree_follows_map<T, U>()
    ensures { TreeFollowsMap T U }
{}
