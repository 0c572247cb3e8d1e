// What is given beside the order.

// M9: the four lists of a set. With its order they are all that one check is given.
#[derive(Clone, Copy)]
pub struct MasterLists<'a> {
    pub waypoints: &'a [i64],
    pub start: &'a [i64],
    pub end: &'a [i64],
    pub table: &'a [i64],
}
