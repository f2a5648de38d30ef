// Trees of relations, as lists with parents.
use rpt_base::Listed;

/// A relation and the one that it hangs on, which is listed before it. Relations are numbered from 0.
#[derive(Clone, Copy)]
pub struct Link {
    pub child: u32,
    pub parent: u32,
}

/// A list of relations with parents: the root first, and then the links' children in order. Contracts see the links as a
/// list.
#[derive(Drop)]
pub struct Tree {
    pub root: u32,
    pub links: Listed<Link>,
}
