//! Laws of stores and of loading, each the contract of a function that does nothing.
ghost use Rattle.std.specs.Prelude.{◌≡◌, ℕ, ◌+◌, ◌-◌, ◌≤◌, ◌^◌, ◌||◌, nat_lt, List, length, map, take};
ghost use Rattle.std.specs.List.{range_with_len};
ghost use Rattle.value_model.specs.Plain.{Plain, Entries, weight, node as container};
ghost use Rattle.value_model.specs.declared.kind.Kind.{Kind as KindModel};
ghost use Rattle.numbered.specs.Loading.{places, numbered, post_order, additions, load_full};
ghost use Rattle.numbered.specs.Store.{IsNumber, IsStore, tree_at, used};
ghost use Rattle.numbered.specs.Tree.{Tree, plain, number, IsNumberedState};
ghost use Rattle.node_store.specs.Nodes.{built, kind_of, keys_of, cells_of};

/// The states of a store are numbered states: in each, containers with equal numbers carry equal subtrees.
pub fn law_numbered_states()
    ensures { (ts : List Tree) (id : ℕ) → IsStore ts → IsNumber ts id → IsNumberedState (tree_at ts id) }
{}

/// The list of a store's states is the list of its nodes: each state is the one that its node stands for, among the
/// states before it.
pub fn law_states_are_nodes()
    ensures { (ts : List Tree) (id : ℕ) → IsStore ts → IsNumber ts id → tree_at ts id ≡ built (take (id - 1) ts) (kind_of (tree_at ts id)) (keys_of (tree_at ts id)) (cells_of (tree_at ts id)) }
{}

/// Loading forgets nothing, and gives each container place a number of its own: read in post-order, the numbers follow one
/// another.
pub fn law_loading()
    ensures value { (next : ℕ) (v : Plain) → plain (numbered next v) ≡ v }
    ensures numbers { (next : ℕ) (v : Plain) → map number (post_order (numbered next v)) ≡ range_with_len next (places v) }
{}

/// Some addition of a loading is refused exactly where all of them together are too many or too heavy; together they weigh
/// what the value does, and 1 more for each container inside it.
pub fn law_load_full()
    ensures full { (ts : List Tree) (v : Plain) → length ts ≤ 2097151 → used ts ≤ 2 ^ 25 → load_full ts v ≡ nat_lt 2097151 (length ts + places v) || nat_lt (2 ^ 25) (used ts + used (additions ts v)) }
    ensures weight { (next : ℕ) (kind : KindModel) (es : Entries) → used (post_order (numbered next (container kind es))) + 1 ≡ weight (container kind es) + places (container kind es) }
{}
