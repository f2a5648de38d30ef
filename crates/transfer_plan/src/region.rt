// What the regions of a plan are for.

/// What a region of a tree's plan is for, with the relation that it is about.
#[derive(Clone, Copy)]
pub enum Region {
    /// The items that pass its forward pipe.
    Forward(u32),
    /// Their keys, which its parent reads.
    ForwardKeys(u32),
    /// The items that pass its backward pipe: those that are kept.
    Backward(u32),
    /// The keys of the items that its parent keeps, which it reads.
    BackwardKeys(u32),
}
