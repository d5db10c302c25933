//! Loading a value: children before their parent, each container place under a number of its own.
ghost use Rattle.std.specs.Prelude.{◌≡◌, ◌∷◌, [], ◌++◌, length, map, true, false, IfOk, OnOk, OnErr, IsErrOf, IsTrue, None, MatchResult};
ghost use Rattle.node_store.specs.Nodes.{rows};
ghost use Rattle.std.specs.FinMap.Entries.{is_sorted};
ghost use Rattle.value_model.specs.Limits.{value_limit, state_limit};
ghost use Rattle.value_model.specs.Order.{key_cmp};
ghost use Rattle.value_model.specs.Plain as plain_value;
ghost use Rattle.value_model.specs.declared.kind.Kind.TheVariants as kind;
ghost use Rattle.values.specs.Seen.{of_field, of_entry, of_member, of_fields, of_items, of_entries, of_members};
ghost use Rattle.numbered.specs.Loading.{loaded, load_full};
ghost use Rattle.numbered.specs.Store.{tree_at};
ghost use Rattle.numbered.specs.Tree.{plain};
ghost use Rattle.node_store.specs.Loads.{IsNode, Loads, LoadsTable, AreLoaded, Refused, full_in, AllWithin};
ghost use Rattle.node_store.specs.Paged.{states, IsLonger};
ghost use Rattle.page_tables.specs.declared.cell.Cell.TheVariants as variant;

use crate::fault::StoreFault;
use crate::node::{Cells, Keys, Node};
use crate::store::Store;
use crate::table::Table;
use page_tables::{Cell, NodeId};
use std::alloc::{AllocError, Global};
use value_model::{Key, Kind};
use values::{Entry, Field, Val};

impl Store {
    /// Adds every container place of a state as a node of its own, in post-order, keys and indexes ascending, and answers
    /// the number of the whole.
    ///
    /// `Full` exactly where one of these additions would be; the store is then as before, as it is where memory ran out.
    pub fn load(&mut self, alloc: Global, v: &Val) -> Result<NodeId, StoreFault>
        requires { state_limit v.now ≡ None }
        ensures ok { IfOk result (λ id. (id ≡ length (states self.new)) × ((states self.new) ≡ loaded (states self.old) v.now)) }
        ensures value { IfOk result (λ id. plain (tree_at (states self.new) id) ≡ v.now) }
        ensures room { OnOk result (load_full (states self.old) v.now ≡ false) }
        ensures only { IsErrOf result StoreFault.Full → load_full (states self.old) v.now ≡ true }
        ensures longer { IfOk result (λ _. IsLonger self.old self.new) }
        ensures stands { OnErr result (self.new ≡ self.old) }
    {
        let mark = self.mark();
        match load_cell(self, alloc, v) {
            Ok(cell) => Ok(number_of(cell)),
            Err(fault) => {
                self.cut_to(mark);
                Err(fault)
            }
        }
    }
}

/// The number in a cell that stands for a node.
fn number_of(cell: Cell) -> NodeId
    requires { IsNode cell }
    ensures { cell ≡ variant.Node result }
{
    match cell {
        Cell::Node(id) => id,
        Cell::Prim(_) => unreachable!(),
    }
}

#[cycle(load)]
fn load_cell(store: &mut Store, alloc: Global, v: &Val) -> Result<Cell, StoreFault>
    requires { value_limit v.now ≡ None }
    ensures done { Loads result (states store.old) (states store.new) v.now }
    ensures longer { IsLonger store.old store.new }
{
    match &v.node {
        values::ValNode::Prim(key) => Ok(Cell::Prim(key.copy(alloc)?)),
        values::ValNode::Obj(fields) => load_object(store, alloc, fields),
        values::ValNode::List(items) => load_list(store, alloc, items),
        values::ValNode::Map(entries) => load_map(store, alloc, entries),
        values::ValNode::Set(members) => load_set(store, alloc, members),
    }
}

#[cycle(load)]
fn load_object(store: &mut Store, alloc: Global, fields: &Vec<Field>) -> Result<Cell, StoreFault>
    requires accepted { value_limit (plain_value.node kind.Obj (of_fields fields.now.items)) ≡ None }
    requires sorted { IsTrue (is_sorted key_cmp (map of_field fields.now.items)) }
    ensures done { Loads result (states store.old) (states store.new) (plain_value.node kind.Obj (of_fields fields.now.items)) }
    ensures longer { IsLonger store.old store.new }
{
    let table = load_fields(store, alloc, fields)?;
    let id = store.add(alloc, table.into_node(Kind::Obj))?;
    Ok(Cell::Node(id))
}

#[cycle(load)]
fn load_fields(store: &mut Store, alloc: Global, fields: &Vec<Field>) -> Result<Table, StoreFault>
    requires { AllWithin (of_fields fields.now.items) }
    ensures done { LoadsTable result (states store.old) (states store.new) (of_fields fields.now.items) }
    ensures longer { IsLonger store.old store.new }
{
    let mut table = Table::with_capacity(alloc, fields.len())?;
    for f in fields {
        let key = Key::Text(f.key.copy(alloc)?);
        let cell = load_cell(store, alloc, &f.value)?;
        table = table.push(key, cell)?;
    }
    Ok(table)
}

#[cycle(load)]
fn load_map(store: &mut Store, alloc: Global, entries: &Vec<Entry>) -> Result<Cell, StoreFault>
    requires accepted { value_limit (plain_value.node kind.Map (of_entries entries.now.items)) ≡ None }
    requires sorted { IsTrue (is_sorted key_cmp (map of_entry entries.now.items)) }
    ensures done { Loads result (states store.old) (states store.new) (plain_value.node kind.Map (of_entries entries.now.items)) }
    ensures longer { IsLonger store.old store.new }
{
    let table = load_entries(store, alloc, entries)?;
    let id = store.add(alloc, table.into_node(Kind::Map))?;
    Ok(Cell::Node(id))
}

#[cycle(load)]
fn load_entries(store: &mut Store, alloc: Global, entries: &Vec<Entry>) -> Result<Table, StoreFault>
    requires { AllWithin (of_entries entries.now.items) }
    ensures done { LoadsTable result (states store.old) (states store.new) (of_entries entries.now.items) }
    ensures longer { IsLonger store.old store.new }
{
    let mut table = Table::with_capacity(alloc, entries.len())?;
    for e in entries {
        let key = e.key.copy(alloc)?;
        let cell = load_cell(store, alloc, &e.value)?;
        table = table.push(key, cell)?;
    }
    Ok(table)
}

#[cycle(load)]
fn load_list(store: &mut Store, alloc: Global, items: &Vec<Val>) -> Result<Cell, StoreFault>
    requires { value_limit (plain_value.node kind.List (of_items items.now.items)) ≡ None }
    ensures done { Loads result (states store.old) (states store.new) (plain_value.node kind.List (of_items items.now.items)) }
    ensures longer { IsLonger store.old store.new }
{
    let cells = Cells::from_vec(load_items(store, alloc, items)?);
    let keys = Keys::from_vec(Vec::new(alloc));
    let id = store.add(
        alloc,
        Node {
            kind: Kind::List,
            keys,
            cells,
        },
    )?;
    Ok(Cell::Node(id))
}

#[cycle(load)]
fn load_items(store: &mut Store, alloc: Global, items: &Vec<Val>) -> Result<Vec<Cell>, StoreFault>
    requires { AllWithin (of_items items.now.items) }
    ensures done { MatchResult result (λ cs. AreLoaded (states store.old) (of_items items.now.items) (states store.new) (rows kind.List [] cs.items)) (λ e. Refused (states store.old) (states store.new) (full_in (states store.old) (of_items items.now.items)) e) }
    ensures longer { IsLonger store.old store.new }
{
    let mut cells = Vec::with_capacity(alloc, items.len())?;
    for v in items {
        let cell = load_cell(store, alloc, v)?;
        cells.push(cell)?;
    }
    Ok(cells)
}

fn load_set(store: &mut Store, alloc: Global, members: &Vec<Key>) -> Result<Cell, StoreFault>
    requires accepted { value_limit (plain_value.node kind.Set (of_members members.now.items)) ≡ None }
    requires sorted { IsTrue (is_sorted key_cmp (map of_member members.now.items)) }
    ensures done { Loads result (states store.old) (states store.new) (plain_value.node kind.Set (of_members members.now.items)) }
    ensures longer { IsLonger store.old store.new }
{
    let keys = Keys::from_vec(copy_keys(alloc, members)?);
    let cells = Cells::from_vec(member_cells(alloc, members)?);
    let id = store.add(
        alloc,
        Node {
            kind: Kind::Set,
            keys,
            cells,
        },
    )?;
    Ok(Cell::Node(id))
}

fn copy_keys(alloc: Global, keys: &Vec<Key>) -> Result<Vec<Key>, AllocError>
    ensures { IfOk result (λ v. v.items ≡ keys.now.items) }
{
    let mut out = Vec::with_capacity(alloc, keys.len())?;
    for key in keys {
        out.push(key.copy(alloc)?)?;
    }
    Ok(out)
}

fn member_cells(alloc: Global, keys: &Vec<Key>) -> Result<Vec<Cell>, AllocError>
    ensures { IfOk result (λ v. v.items ≡ map variant.Prim keys.now.items) }
{
    let mut out = Vec::with_capacity(alloc, keys.len())?;
    for key in keys {
        out.push(Cell::Prim(key.copy(alloc)?))?;
    }
    Ok(out)
}
