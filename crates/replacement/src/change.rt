// What parts 6 and 7 go by: the limit of rule 1, the stops of the children that survive and of those that take part in rule 8, whether U fell
// under rule 1, and how many branched records stand at the far end afterwards.
#[derive(Clone, Copy)]
pub struct Change {
    pub limit: u32,
    pub alive: u32,
    pub taking: u32,
    pub fell: bool,
    pub far: usize,
}
