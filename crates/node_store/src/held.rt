use std::marker::Model;
use value_model::Kind;

/// The page numbers of a node.
///
/// A contract sees them as a list.
#[derive(Drop)]
pub struct Names {
    names: Vec<u32>,
}

impl Model for Names {
    ghost use Rattle.std.specs.Prelude.{List, ℕ};

    ghost Value = { List ℕ };

    ghost view = { λ n. n.names.items };
}

impl Names {
    ghost use Rattle.std.specs.Prelude.{◌≡◌};

    /// These numbers. It takes no memory.
    pub(crate) fn from_vec(names: Vec<u32>) -> Names
        ensures { result ≡ names.items }
    {
        Names { names }
    }

    /// The numbers, to be read.
    pub(crate) fn as_slice(&self) -> &[u32]
        ensures { result.now ≡ self.now }
    {
        self.names.as_slice()
    }
}

/// A node as it is listed: what kind of container it is, and in which pages its entries stand.
#[derive(Drop)]
pub struct Listed {
    /// What the container is.
    pub kind: Kind,
    /// The pages of its table.
    pub names: Names,
    /// How many pages there were after its addition.
    pub after: u64,
}

/// A node as the store holds it, with what is kept of the state that it stands for.
#[derive(Drop)]
pub struct Held {
    /// The node itself.
    pub node: Listed,
    /// For each page, how many entries stand before it.
    pub starts: Vec<u32>,
    /// For each page, how many container places stand in the entries before it.
    pub before: Vec<u32>,
    /// How many entries there are.
    pub count: u32,
    /// The own weights of all nodes up to this one, together.
    pub total: u32,
    /// What the state weighs.
    pub weight: u32,
    /// How many values there are in the state, itself counted.
    pub values: u32,
    /// How many container places there are, this node's counted.
    pub containers: u32,
    /// How many containers nest, at most 32.
    pub depth: u8,
}

/// What a node measures.
#[derive(Clone, Copy, Drop)]
pub struct Measures {
    /// What it weighs by itself: each container in it counts 1.
    pub own: u64,
    /// What its state weighs.
    pub weight: u64,
    /// How many values there are in the state, itself counted.
    pub values: u64,
    /// How many containers nest.
    pub depth: u64,
    /// How many container places there are, its own counted.
    pub containers: u64,
}
