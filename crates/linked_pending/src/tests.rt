//! What no clause says: that the calls find memory, and that the two lists stand beside plain lists of lists.

ghost use Rattle.std.specs.Prelude.{◌≡◌, ◌<◌, ◌^◌, OnOk};

use crate::{NoMemory, Order, Pending, Place};
use std::alloc::{AllocError, Global};
use std::mem;
use std::test::*;

// How many nodes the random steps move.
const NODES: usize = 64;
// Among how many groups they move them.
const GROUPS: usize = 16;

// A step that was taken.
#[derive(Clone, Copy, Debug)]
enum Step {
    Move(usize, usize),
    Leave(usize),
    Freeze,
}

// Two lists, and a generator of random numbers that always gives the same ones.
#[derive(Drop)]
struct Drill {
    pending: Pending,
    seed: u64,
    ghost roomy: { pending.room ≡ 64 },
}

impl Drill {
    fn new(alloc: Global) -> Result<Self, NoMemory> {
        let mut pending = Pending::new(alloc);
        pending.reserve(NODES, GROUPS)?;
        Ok(Drill { pending, seed: 1 })
    }

    // A number below the bound.
    fn below(&mut self, bound: usize) -> usize
        requires { 0 < bound }
        ensures { result < bound }
    {
        self.seed = self
            .seed
            .wrapping_mul(6364136223846793005)
            .wrapping_add(1442695040888963407);
        (self.seed >> 33) as usize % bound
    }

    // Chooses a step, and takes it.
    fn step(&mut self) -> Step {
        let group = self.below(GROUPS);
        let node = self.below(NODES);
        match self.below(8) {
            0..=4 => {
                self.pending.leave(node);
                self.pending.join(group, node);
                Step::Move(group, node)
            }
            5 => {
                self.pending.leave(node);
                Step::Leave(node)
            }
            _ => self.send(),
        }
    }

    // Takes the front out, or freezes what waits where there is none.
    fn send(&mut self) -> Step {
        match self.pending.front() {
            Some(place) => {
                self.pending.leave(place.node);
                Step::Leave(place.node)
            }
            None => {
                self.pending.freeze();
                Step::Freeze
            }
        }
    }
}

#[derive(Drop)]
struct PlainGroup {
    number: usize,
    nodes: Vec<usize>,
}

// The same two lists, as lists of lists that are searched and copied.
#[derive(Drop)]
struct Plain {
    waiting: Vec<PlainGroup>,
    frozen: Vec<PlainGroup>,
}

impl Plain {
    fn new(alloc: Global) -> Self {
        Plain {
            waiting: Vec::new(alloc),
            frozen: Vec::new(alloc),
        }
    }

    fn follow(&mut self, alloc: Global, step: Step) -> Result<(), AllocError> {
        match step {
            Step::Move(group, node) => {
                self.leave(node);
                self.join(alloc, group, node)
            }
            Step::Leave(node) => {
                self.leave(node);
                Ok(())
            }
            Step::Freeze => {
                mem::swap(&mut self.waiting, &mut self.frozen);
                Ok(())
            }
        }
    }

    fn join(&mut self, alloc: Global, number: usize, node: usize) -> Result<(), AllocError> {
        if !self.waiting.iter().any(|group| group.number == number) {
            let nodes = Vec::new(alloc);
            self.waiting.push(PlainGroup { number, nodes })?;
        }
        for group in &mut self.waiting {
            if group.number == number {
                group.nodes.push(node)?;
            }
        }
        Ok(())
    }

    fn leave(&mut self, node: usize) {
        leave_each(&mut self.waiting, node);
        leave_each(&mut self.frozen, node);
    }

    fn front(&self) -> Option<Place> {
        let group = self.frozen.first()?;
        let node = *group.nodes.first()?;
        Some(Place {
            group: group.number,
            node,
        })
    }

    fn frozen_group(&self, node: usize) -> Option<usize> {
        for group in &self.frozen {
            if group.nodes.contains(&node) {
                return Some(group.number);
            }
        }
        None
    }
}

fn leave_each(groups: &mut Vec<PlainGroup>, node: usize) {
    for group in &mut *groups {
        group.nodes.retain(|&other| other != node);
    }
    groups.retain(|group| !group.nodes.is_empty());
}

#[test]
fn a_million_random_steps_keep_to_plain_lists(rt: HostRuntime) -> Result<(), Fail> {
    let mut drill = Drill::new(rt.alloc())?;
    let mut plain = Plain::new(rt.alloc());
    for turn in 0..5_000 {
        let step = drill.step();
        plain.follow(rt.alloc(), step)?;
        assert_eq!(rt;
            drill.pending.front(),
            plain.front(),
            "front after {turn}, {step:?}"
        );
        let node = drill.below(NODES);
        assert_eq!(rt;
            drill.pending.frozen_group(node),
            plain.frozen_group(node),
            "group of {node} after {turn}, {step:?}"
        );
    }
    for _ in 5_000..1_000_000 {
        drill.step();
    }
    // Each send takes a node out, but for one that freezes.
    for _ in 0..=NODES {
        drill.send();
    }
    assert_eq!(rt; drill.pending.front(), None, "no node stood twice");
    Ok(())
}

#[test]
fn room_is_found_for_three_nodes_and_for_a_hundred_thousand(rt: HostRuntime) -> Result<(), Fail> {
    let mut order = Order::new(rt.alloc());
    let mut pending = Pending::new(rt.alloc());
    order.reserve(3)?;
    pending.reserve(3, 2)?;
    assert_eq!(rt; (order.room(), pending.room()), (3, 3));
    order.reserve(100_000)?;
    pending.reserve(1_000, 100_000)?;
    assert_eq!(rt; (order.room(), pending.room()), (100_000, 100_000));
    Ok(())
}

#[test]
fn groups_freeze_in_the_order_in_which_they_began_to_wait(rt: HostRuntime) -> Result<(), Fail> {
    let mut pending = Pending::new(rt.alloc());
    pending.reserve(5, 4)?;
    pending.join(3, 2);
    pending.join(0, 4);
    pending.join(3, 1);
    pending.leave(2);
    pending.freeze();
    pending.join(0, 2);
    assert_eq!(rt; pending.front(), Some(Place { group: 3, node: 1 }));
    assert_eq!(rt; pending.frozen_group(4), Some(0));
    assert_eq!(rt; pending.frozen_group(2), None, "it waits");
    pending.leave(1);
    assert_eq!(rt;
        pending.front(),
        Some(Place { group: 0, node: 4 }),
        "group 3 is empty and gone"
    );
    Ok(())
}

#[test]
fn an_order_is_walked_from_its_first_node_to_its_last(rt: HostRuntime) -> Result<(), Fail> {
    let mut order = Order::new(rt.alloc());
    order.reserve(4)?;
    order.push(2);
    order.push(0);
    order.push(3);
    order.remove(0);
    assert_eq!(rt; order.first(), Some(2));
    assert_eq!(rt; order.after(2), Some(3));
    assert_eq!(rt; order.after(3), None, "it is the last");
    assert_eq!(rt; order.after(0), None, "it isn't in the list");
    Ok(())
}
