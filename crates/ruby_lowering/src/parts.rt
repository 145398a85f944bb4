ghost use Rattle.std.specs.Prelude.{◌≡◌, [], IfOk, OnOk};
ghost use Rattle.std.specs.List.{fold};
ghost use Rattle.ruby_lowering.specs.Parts as spec;
ghost use Rattle.ruby_lowering.specs.declared.parts.Parts.{Parts};

use ruby_tree::{Arm, ListTarget, Local, MethodName, Node, Param, Rescue, When};
use ruby_values::lists::with_room;
use ruby_values::queue::Queue;
use ruby_values::value::{Modifier, Placed, PlacedArm, PlacedPath, Value};
use src_text::{Boxed, Mem, Seq};
use std::alloc::Global;
use std::mem;

/// The values of a node's trees, each with those of its sort, in their order.
#[derive(Drop)]
pub(crate) struct Parts {
    pub(crate) leaves: Seq<usize>,
    pub(crate) nodes: Queue<Boxed<Node>>,
    pub(crate) maybe: Option<Boxed<Node>>,
    pub(crate) list: Option<Seq<Node>>,
    pub(crate) items: Option<Seq<Placed>>,
    pub(crate) param: Option<Boxed<Param>>,
    pub(crate) params: Option<Seq<Param>>,
    pub(crate) names: Queue<MethodName>,
    pub(crate) path: Option<Boxed<PlacedPath>>,
    pub(crate) targets: Queue<ListTarget>,
    pub(crate) arms: Queue<Arm>,
    /// Where the first arm begins.
    pub(crate) arms_start: u32,
    pub(crate) whens: Queue<When>,
    pub(crate) rescues: Queue<Rescue>,
    pub(crate) otherwise: Option<Boxed<Node>>,
    pub(crate) ensure: Option<Boxed<Node>>,
    pub(crate) modifiers: Queue<Modifier>,
    pub(crate) local: Option<Local>,
    pub(crate) singleton: bool,
}

impl Parts {
    /// No values yet.
    pub(crate) fn new(alloc: Global) -> Parts
        ensures { result ≡ spec.no_parts }
    {
        Parts {
            leaves: Seq::new(alloc),
            nodes: Queue::new(alloc),
            maybe: None,
            list: None,
            items: None,
            param: None,
            params: None,
            names: Queue::new(alloc),
            path: None,
            targets: Queue::new(alloc),
            arms: Queue::new(alloc),
            arms_start: 0,
            whens: Queue::new(alloc),
            rescues: Queue::new(alloc),
            otherwise: None,
            ensure: None,
            modifiers: Queue::new(alloc),
            local: None,
            singleton: false,
        }
    }

    /// Lets all values go, and keeps the memory for leaves and nodes.
    pub(crate) fn clear(&mut self, alloc: Global)
        ensures { self.new ≡ spec.no_parts }
    {
        clear_leaves(alloc, &mut self.leaves);
        self.nodes.clear();
        self.maybe = None;
        self.list = None;
        self.items = None;
        self.param = None;
        self.params = None;
        self.names.clear();
        self.path = None;
        self.targets.clear();
        self.arms.clear();
        self.arms_start = 0;
        self.whens.clear();
        self.rescues.clear();
        self.otherwise = None;
        self.ensure = None;
        self.modifiers.clear();
        self.local = None;
        self.singleton = false;
    }

    // Puts a value with those of its sort.
    fn add(&mut self, value: Value) -> Mem<()>
        ensures { OnOk result (self.new ≡ spec.add self.old value) }
    {
        match value {
            Value::Leaf(place) => self.leaves.push(place),
            Value::Node(node) => self.nodes.push(node),
            Value::Maybe(node) => put(&mut self.maybe, node),
            Value::Nodes(nodes) => put(&mut self.list, Some(nodes)),
            Value::Items(items) => put(&mut self.items, Some(items)),
            Value::Param(param) => put(&mut self.param, Some(param)),
            Value::Params(params) => put(&mut self.params, Some(params)),
            Value::Name(name) => self.names.push(name),
            Value::Path(path) => put(&mut self.path, Some(path)),
            Value::Target(target) => self.targets.push(target.into_inner()),
            Value::Arm(arm) => self.add_arm(arm.into_inner()),
            Value::When(when) => self.whens.push(when.into_inner()),
            Value::Rescue(rescue) => self.rescues.push(rescue.into_inner()),
            Value::Otherwise(node) => put(&mut self.otherwise, Some(node)),
            Value::Ensure(node) => put(&mut self.ensure, Some(node)),
            Value::Modifier(modifier) => self.modifiers.push(modifier),
            Value::Local(local) => put(&mut self.local, Some(local)),
            Value::Singleton => {
                self.singleton = true;
                Ok(())
            }
            _ => Ok(()),
        }
    }

    fn add_arm(&mut self, placed: PlacedArm) -> Mem<()>
        ensures { OnOk result (self.new ≡ spec.add_arm self.old placed) }
    {
        let PlacedArm { arm, start } = placed;
        self.arms_start = start_kept(&self.arms, self.arms_start, start);
        self.arms.push(arm)
    }
}

// Lets the leaves go, and keeps the memory.
fn clear_leaves(alloc: Global, leaves: &mut Seq<usize>)
    ensures { leaves.new ≡ [] }
{
    let mut kept = mem::replace(leaves, Seq::new(alloc)).into_vec();
    kept.clear();
    *leaves = Seq::from_vec(kept);
}

// Puts a value in place of another, which takes no memory.
fn put<T: Drop>(place: &mut T, value: T) -> Mem<()>
    ensures { place.new ≡ value }
{
    *place = value;
    Ok(())
}

// Where the first arm begins, once there is one more.
fn start_kept(arms: &Queue<Arm>, before: u32, start: u32) -> u32
    ensures { result ≡ spec.start_kept arms.now before start }
{
    if arms.is_empty() { start } else { before }
}

// Puts a value with the leaves, if it is one.
fn add_leaf(leaves: &mut Seq<usize>, value: Value) -> Mem<()>
    ensures { OnOk result ((parts : Parts) → parts.leaves ≡ leaves.old → leaves.new ≡ (spec.add parts value).leaves) }
{
    match value {
        Value::Leaf(place) => leaves.push(place),
        _ => Ok(()),
    }
}

/// The leaves among values.
pub(crate) fn leaves_among(alloc: Global, values: Seq<Value>) -> Mem<Seq<usize>>
    ensures { IfOk result (λ leaves. leaves ≡ (spec.gathered values).leaves) }
{
    let mut leaves = with_room(alloc, values.len())?;
    for value in values.into_vec() {
        add_leaf(&mut leaves, value)?;
    }
    Ok(leaves)
}

/// Puts the values of a node's trees with those of their sorts.
pub(crate) fn gather(parts: &mut Parts, values: Seq<Value>) -> Mem<()>
    ensures { OnOk result (parts.new ≡ fold spec.add parts.old values) }
{
    for value in values.into_vec() {
        parts.add(value)?;
    }
    Ok(())
}
