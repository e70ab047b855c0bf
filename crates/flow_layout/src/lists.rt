//! The lists of a region: each item is laid where it stands, and is guarded where another one may be entered as well.

use crate::dominators::put;
use crate::places::{Places, is_marked};
use crate::region::{Group, Item, Out, Region, Target};
use dream_words::Name;
use flow_plans::{Entry, Plan, Value, Way};
use graph_order::NodeId;
use sqlite_items::{Boxed, Items};
use std::alloc::{AllocError, Global};

/// Stands for the heads of the component among the items that may be entered: the turn ends.
const TURN: usize = usize::MAX;

/// The local for tests that tells which way a branch goes, where no flag does.
const WAY: u32 = 0;

/// The most values that are tested at once.
const MOST_VALUES: usize = 64;

/// A component: its heads, its exit targets, and the number of its selector, where there is more than one of these.
#[derive(Drop)]
pub(crate) struct Component {
    pub(crate) heads: Vec<NodeId>,
    pub(crate) exits: Vec<NodeId>,
    pub(crate) selector: u32,
}

/// What a choice is made by.
#[derive(Clone, Copy)]
enum By {
    /// A local for tests that has the word.
    Word(u32),
    /// A selector.
    Selector(u32),
}

/// A region as far as its lists are laid.
#[derive(Drop)]
pub(crate) struct Lister<'a> {
    pub(crate) alloc: Global,
    pub(crate) region: &'a Region,
    pub(crate) places: &'a Places,
    pub(crate) components: &'a [Component],
    /// The component inside which the region is.
    pub(crate) inside: Option<usize>,
    /// The plans of the components, until they are taken.
    pub(crate) bodies: Vec<Option<Plan>>,
    /// For each item its flag, where it is guarded.
    pub(crate) flags: Vec<Option<u32>>,
    /// The number of the next local for tests.
    pub(crate) next: u32,
    /// The guarded items that still come in the lists that are open.
    pub(crate) open: Vec<usize>,
    /// No plan is found.
    pub(crate) failed: bool,
}

fn value(n: u32, value: u32) -> Value {
    Value {
        name: Name::B(n),
        value,
    }
}

fn way(n: u32, on_true: u32, on_false: u32) -> Way {
    Way {
        name: Name::B(n),
        on_true,
        on_false,
    }
}

impl<'a> Lister<'a> {
    /// Lays the list that begins with an item. The answer is what may be entered behind it.
    #[cycle(lists)]
    pub(crate) fn list(
        &mut self,
        first: usize,
        room: u32,
        plan: &mut Items<Plan>,
    ) -> Result<Vec<usize>, AllocError> {
        let todo = Vec::from_array(self.alloc, [first])?;
        let pending = Vec::from_array(self.alloc, [first])?;
        if room == 0 {
            self.failed = true;
            return Ok(pending);
        }
        self.lay(todo, pending, room - 1, plan)
    }

    /// Lays items in order, the last of `todo` first, where some of them may be entered.
    #[cycle(lists)]
    fn lay(
        &mut self,
        todo: Vec<usize>,
        pending: Vec<usize>,
        room: u32,
        plan: &mut Items<Plan>,
    ) -> Result<Vec<usize>, AllocError> {
        if room == 0 {
            self.failed = true;
            return Ok(pending);
        }
        let mut todo = todo;
        let mut pending = pending;
        for _item in 0..self.region.items.len().saturating_add(1) {
            let item = match todo.pop() {
                None => return Ok(pending),
                Some(item) => item,
            };
            self.open.retain(|&k| k != item);
            if !pending.contains(&item) {
                continue;
            }
            if pending.len() == 1 {
                pending = self.item(item, room - 1, plan, &mut todo)?;
                continue;
            }
            pending.retain(|&k| k != item);
            let flag = self.flag(item)?;
            let mut inner = Items::new(self.alloc);
            let after = self.list(item, room - 1, &mut inner)?;
            let meets = todo.iter().any(|k| after.contains(k));
            if meets || after.is_empty() || todo.is_empty() {
                self.test(plan, value(flag, 1), inner, Items::new(self.alloc))?;
                plan.push(Plan::Fade(Name::B(flag)))?;
                add_all(&mut pending, &after)?;
                continue;
            }
            let mut rest = Items::new(self.alloc);
            let mut behind = self.lay(todo, pending, room - 1, &mut rest)?;
            self.test(plan, value(flag, 1), inner, rest)?;
            plan.push(Plan::Fade(Name::B(flag)))?;
            add_all(&mut behind, &after)?;
            return Ok(behind);
        }
        Ok(pending)
    }

    /// The flag of a guarded item.
    fn flag(&mut self, item: usize) -> Result<u32, AllocError> {
        match self.flags.get(item).copied().unwrap_or(None) {
            Some(flag) => Ok(flag),
            None => {
                let flag = self.fresh();
                if let Some(place) = self.flags.get_mut(item) {
                    *place = Some(flag);
                }
                Ok(flag)
            }
        }
    }

    /// A local for tests that stands nowhere yet.
    fn fresh(&mut self) -> u32 {
        let n = self.next;
        self.next = n.saturating_add(1);
        n
    }

    /// A test of a variable that is 0 or 1, with its two plans; nothing where both are empty. That it is 1 is told by that it isn't 0.
    fn test(
        &mut self,
        plan: &mut Items<Plan>,
        of: Value,
        first: Items<Plan>,
        second: Items<Plan>,
    ) -> Result<(), AllocError> {
        let mut values = Items::new(self.alloc);
        if of.value == 1 {
            values.push(Value {
                name: of.name,
                value: 0,
            })?;
            return self.test_any(plan, values, second, first);
        }
        values.push(of)?;
        self.test_any(plan, values, first, second)
    }

    fn test_any(
        &mut self,
        plan: &mut Items<Plan>,
        values: Items<Value>,
        first: Items<Plan>,
        second: Items<Plan>,
    ) -> Result<(), AllocError> {
        if first.is_empty() && second.is_empty() {
            return Ok(());
        }
        let first = Boxed::new(self.alloc, Plan::Seq(first))?;
        let second = Boxed::new(self.alloc, Plan::Seq(second))?;
        plan.push(Plan::Test(values, first, second))
    }

    /// Lays an item, which alone may be entered, and opens its list.
    #[cycle(lists)]
    fn item(
        &mut self,
        item: usize,
        room: u32,
        plan: &mut Items<Plan>,
        todo: &mut Vec<usize>,
    ) -> Result<Vec<usize>, AllocError> {
        if room == 0 {
            self.failed = true;
            return Ok(Vec::new(self.alloc));
        }
        self.open_list(item, plan, todo)?;
        self.put_component(item, plan)?;
        let region = self.region;
        match region.outs.get(item) {
            None => Ok(Vec::new(self.alloc)),
            Some(out) => self.out(item, out, room - 1, plan, todo),
        }
    }

    /// Puts the items of a list behind others that are to be laid, and clears their flags within a component.
    fn open_list(
        &mut self,
        item: usize,
        plan: &mut Items<Plan>,
        todo: &mut Vec<usize>,
    ) -> Result<(), AllocError> {
        let places = self.places;
        if let Some(joins) = places.joins.get(item) {
            for &join in joins.iter().rev() {
                todo.push(join)?;
                if let Some(Some(flag)) = self.flags.get(join).copied() {
                    self.open.push(join)?;
                    if self.inside.is_some() {
                        plan.push(Plan::Put(value(flag, 0)))?;
                    }
                }
            }
        }
        Ok(())
    }

    /// What is known of the flags of the open lists where one item alone may be entered.
    fn known(&self) -> Result<Items<Value>, AllocError> {
        let mut known = Items::new(self.alloc);
        for &item in &self.open {
            if let Some(Some(flag)) = self.flags.get(item).copied() {
                known.push(value(flag, 0))?;
            }
        }
        Ok(known)
    }

    /// Some nodes of a component that may be entered; where they are several its selector tells which.
    fn entries(&self, nodes: &[NodeId], selector: u32) -> Result<Items<Entry>, AllocError> {
        let mut entries = Items::new(self.alloc);
        let mut number: u32 = 0;
        for &node in nodes {
            let mut known = self.known()?;
            if nodes.len() > 1 {
                known.push(Value {
                    name: Name::S(selector),
                    value: number,
                })?;
            }
            entries.push(Entry {
                owes: false,
                node,
                known,
            })?;
            number = number.saturating_add(1);
        }
        Ok(entries)
    }

    /// Puts the block of an item into a plan, where it is one.
    fn put_block(&self, plan: &mut Items<Plan>, item: usize, way: Way) -> Result<(), AllocError> {
        let region = self.region;
        match region.items.get(item) {
            Some(Item::Block(node)) => plan.push(Plan::Block(*node, way)),
            _ => Ok(()),
        }
    }

    /// Puts the component of an item into a plan, where it is one.
    fn put_component(&mut self, item: usize, plan: &mut Items<Plan>) -> Result<(), AllocError> {
        let region = self.region;
        match region.items.get(item) {
            Some(Item::Loop(component)) => self.component(*component, plan),
            _ => Ok(()),
        }
    }

    /// Lays a component.
    fn component(&mut self, component: usize, plan: &mut Items<Plan>) -> Result<(), AllocError> {
        let components = self.components;
        let part = match components.get(component) {
            None => return Ok(()),
            Some(part) => part,
        };
        let begins = self.entries(&part.heads, part.selector)?;
        let ends = self.entries(&part.exits, part.selector)?;
        let body = match self.bodies.get_mut(component) {
            None => None,
            Some(body) => body.take(),
        };
        let body = body.unwrap_or(Plan::Leave);
        plan.push(Plan::Fade(Name::B(WAY)))?;
        plan.push(Plan::Loop(begins, ends, Boxed::new(self.alloc, body)?))
    }

    /// Lays how a block, or a component, goes on.
    #[cycle(lists)]
    fn out(
        &mut self,
        item: usize,
        out: &Out,
        room: u32,
        plan: &mut Items<Plan>,
        todo: &mut Vec<usize>,
    ) -> Result<Vec<usize>, AllocError> {
        if room == 0 {
            self.failed = true;
            return Ok(Vec::new(self.alloc));
        }
        match out {
            Out::Stops => {
                self.put_block(plan, item, way(WAY, 1, 0))?;
                Ok(Vec::new(self.alloc))
            }
            Out::Go(a) => {
                self.put_block(plan, item, way(WAY, 1, 0))?;
                self.follow(*a, true, plan, todo)
            }
            Out::Branch(a, b) => self.branch(item, *a, *b, room - 1, plan, todo),
            Out::Switch(groups) => {
                let word = self.fresh();
                self.put_block(plan, item, way(word, 1, 0))?;
                self.choose(By::Word(word), groups, room - 1, plan)
            }
            Out::Select(component, groups) => {
                let selector = self.components.get(*component).map_or(0, |c| c.selector);
                self.choose(By::Selector(selector), groups, room - 1, plan)
            }
        }
    }

    /// The flag of what an edge leads to, where it is guarded.
    fn flag_of(&self, target: Target) -> Option<u32> {
        match target {
            Target::Inner(item, _) => {
                if is_marked(&self.places.in_arm, item) {
                    None
                } else {
                    self.flags.get(item).copied().unwrap_or(None)
                }
            }
            Target::Head(_) | Target::Exit(_) => None,
        }
    }

    /// Whether something stands where an edge leads, beside a flag.
    fn has_text(&self, target: Target) -> bool {
        match target {
            Target::Inner(item, head) => is_marked(&self.places.in_arm, item) || head.is_some(),
            Target::Head(_) => self.several_heads(),
            Target::Exit(_) => true,
        }
    }

    fn several_heads(&self) -> bool {
        match self.inside {
            None => false,
            Some(k) => self.components.get(k).map_or(false, |c| c.heads.len() > 1),
        }
    }

    /// An item that leads out of all open lists stands alone before the other one.
    fn leaves(&self, target: Target) -> bool {
        match target {
            Target::Inner(item, _) => {
                is_marked(&self.places.in_arm, item) && is_marked(&self.places.leaves, item)
            }
            Target::Head(_) => false,
            Target::Exit(_) => true,
        }
    }

    /// Lays what an edge does before its item is entered. The answer is what may be entered then.
    fn edge(
        &mut self,
        target: Target,
        sets_flag: bool,
        plan: &mut Items<Plan>,
    ) -> Result<Vec<usize>, AllocError> {
        match target {
            Target::Inner(item, head) => {
                let region = self.region;
                if let (Some(head), Some(Item::Loop(k))) = (head, region.items.get(item).copied()) {
                    self.select(k, head, plan)?;
                }
                if let (true, Some(flag)) = (sets_flag, self.flag_of(target)) {
                    plan.push(Plan::Put(value(flag, 1)))?;
                }
                Ok(Vec::from_array(self.alloc, [item])?)
            }
            Target::Head(head) => {
                if let (true, Some(k)) = (self.several_heads(), self.inside) {
                    self.select(k, head, plan)?;
                }
                Ok(Vec::from_array(self.alloc, [TURN])?)
            }
            Target::Exit(exit) => {
                if let Some(k) = self.inside {
                    if self.components.get(k).map_or(false, |c| c.exits.len() > 1) {
                        self.select(k, exit, plan)?;
                    }
                }
                plan.push(Plan::Leave)?;
                Ok(Vec::new(self.alloc))
            }
        }
    }

    /// Puts a number into the selector of a component.
    fn select(
        &mut self,
        component: usize,
        number: u32,
        plan: &mut Items<Plan>,
    ) -> Result<(), AllocError> {
        let selector = self.components.get(component).map_or(0, |c| c.selector);
        plan.push(Plan::Put(Value {
            name: Name::S(selector),
            value: number,
        }))
    }

    /// An edge whose item comes next in this list.
    fn follow(
        &mut self,
        target: Target,
        sets_flag: bool,
        plan: &mut Items<Plan>,
        todo: &mut Vec<usize>,
    ) -> Result<Vec<usize>, AllocError> {
        if let Target::Inner(item, _) = target {
            if is_marked(&self.places.in_arm, item) {
                todo.push(item)?;
            }
        }
        self.edge(target, sets_flag, plan)
    }

    /// An edge with the list of its item, in a list of its own.
    #[cycle(lists)]
    fn arm(
        &mut self,
        target: Target,
        sets_flag: bool,
        room: u32,
        plan: &mut Items<Plan>,
    ) -> Result<Vec<usize>, AllocError> {
        if room == 0 {
            self.failed = true;
            return Ok(Vec::new(self.alloc));
        }
        let pending = self.edge(target, sets_flag, plan)?;
        match target {
            Target::Inner(item, _) => {
                if is_marked(&self.places.in_arm, item) {
                    self.list(item, room - 1, plan)
                } else {
                    Ok(pending)
                }
            }
            Target::Head(_) | Target::Exit(_) => Ok(pending),
        }
    }

    /// A block that ends in a branch, with the arms that stand there.
    #[cycle(lists)]
    fn branch(
        &mut self,
        item: usize,
        a: Target,
        b: Target,
        room: u32,
        plan: &mut Items<Plan>,
        todo: &mut Vec<usize>,
    ) -> Result<Vec<usize>, AllocError> {
        if room == 0 {
            self.failed = true;
            return Ok(Vec::new(self.alloc));
        }
        let told = match (self.flag_of(a), self.flag_of(b)) {
            (Some(f), _) => way(f, 1, 0),
            (None, Some(g)) => way(g, 0, 1),
            (None, None) => way(WAY, 1, 0),
        };
        self.put_block(plan, item, told)?;
        if let (Some(f), Some(g)) = (self.flag_of(a), self.flag_of(b)) {
            plan.push(Plan::Pick(way(g, 0, 1), value(f, 1)))?;
        }
        let of = Value {
            name: told.name,
            value: told.on_true,
        };
        if self.leaves(b) && !self.leaves(a) {
            let not = Value {
                name: told.name,
                value: told.on_false,
            };
            self.arms(not, b, a, room - 1, plan, todo)
        } else {
            self.arms(of, a, b, room - 1, plan, todo)
        }
    }

    /// The arms of a branch: the first where the variable has its value.
    #[cycle(lists)]
    fn arms(
        &mut self,
        of: Value,
        first: Target,
        second: Target,
        room: u32,
        plan: &mut Items<Plan>,
        todo: &mut Vec<usize>,
    ) -> Result<Vec<usize>, AllocError> {
        if room == 0 {
            self.failed = true;
            return Ok(Vec::new(self.alloc));
        }
        let mut one = Items::new(self.alloc);
        let after = self.arm(first, false, room - 1, &mut one)?;
        if after.is_empty() {
            self.test(plan, of, one, Items::new(self.alloc))?;
            return self.follow(second, false, plan, todo);
        }
        let mut two = Items::new(self.alloc);
        let mut behind = self.arm(second, false, room - 1, &mut two)?;
        self.test(plan, of, one, two)?;
        add_all(&mut behind, &after)?;
        Ok(behind)
    }

    /// Arms by a word or a selector; the last group has the values that are left.
    #[cycle(lists)]
    fn choose(
        &mut self,
        by: By,
        groups: &[Group],
        room: u32,
        plan: &mut Items<Plan>,
    ) -> Result<Vec<usize>, AllocError> {
        if room == 0 {
            self.failed = true;
            return Ok(Vec::new(self.alloc));
        }
        let (group, rest) = match groups.split_first() {
            None => return Ok(Vec::new(self.alloc)),
            Some(both) => both,
        };
        if rest.is_empty() {
            return self.arm(group.target, true, room - 1, plan);
        }
        let values = self.tested(by, &group.values, plan)?;
        let mut one = Items::new(self.alloc);
        let after = self.arm(group.target, true, room - 1, &mut one)?;
        let mut two = Items::new(self.alloc);
        let mut behind = self.choose(by, rest, room - 1, &mut two)?;
        if after.is_empty() {
            self.decide(plan, by, values, one, Items::new(self.alloc))?;
            plan.append(two)?;
        } else {
            self.decide(plan, by, values, one, two)?;
        }
        add_all(&mut behind, &after)?;
        Ok(behind)
    }

    /// The test for a group, with its two plans.
    fn decide(
        &mut self,
        plan: &mut Items<Plan>,
        by: By,
        values: Items<Value>,
        first: Items<Plan>,
        second: Items<Plan>,
    ) -> Result<(), AllocError> {
        match by {
            By::Word(_) => self.test_any(plan, values, first, second),
            By::Selector(_) => self.test(plan, value(WAY, 1), first, second),
        }
    }

    /// The values to test for a group by a word; by a selector a local tells whether it has the number.
    fn tested(
        &mut self,
        by: By,
        values: &[u32],
        plan: &mut Items<Plan>,
    ) -> Result<Items<Value>, AllocError> {
        let mut tested = Items::new(self.alloc);
        if values.len() > MOST_VALUES {
            self.failed = true;
        }
        match by {
            By::Word(word) => {
                for &x in values {
                    tested.push(value(word, x))?;
                }
            }
            By::Selector(selector) => {
                let number = values.first().copied().unwrap_or(0);
                let of = Value {
                    name: Name::S(selector),
                    value: number,
                };
                plan.push(Plan::Pick(way(WAY, 1, 0), of))?;
            }
        }
        Ok(tested)
    }
}

/// Adds items that aren't there yet.
fn add_all(items: &mut Vec<usize>, more: &[usize]) -> Result<(), AllocError> {
    for &item in more {
        if !items.contains(&item) {
            items.push(item)?;
        }
    }
    Ok(())
}
