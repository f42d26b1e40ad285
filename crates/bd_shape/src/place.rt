/// What stands at a position of a grouped block: a kid outside the group, told by its old position, or the group.
#[derive(Clone, Copy, Debug, PartialEq, Eq)]
pub enum Place {
    Outside(u32),
    Group,
}
