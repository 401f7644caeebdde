// What planning comes to.

// How many blocks a plan has, and the visits to ranks that were counted in planning them: a pass over some ranks counts one for each.
#[derive(Clone, Copy, PartialEq, Eq, Debug, Default)]
pub struct Extent {
    pub blocks: u16,
    pub visits: u32,
}
