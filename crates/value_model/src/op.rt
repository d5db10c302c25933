/// The operation of a patch, as Immer 10 names them.
#[derive(Clone, Copy, Debug, Drop, PartialEq, Eq)]
pub enum Op {
    /// Sets an entry of an object or a Map, inserts an element into a list, or adds a member to a Set.
    Add,
    /// Sets an entry of an object or a Map, an element of a list or its length, or the whole value.
    Replace,
    /// Takes away an entry, an element of a list, or a member of a Set.
    Remove,
}
