//! A gate round a tally, from its opening to its total.
ghost use Rattle.std.specs.Prelude.{◌≡◌, ℕ, ◌*◌, ◌%◌, ◌^◌, [], ◌∷◌, IfOk, length};
ghost use Rattle.book_gate_many.specs.Crews.{IsCrew, HaveAdded};

use crate::adding::add_beside;
use crate::mail::correspond_beside;
use crate::many::{close_many, split_many};
use crate::tally::Tally;
use book_gate::{Gate, NoMemory, Opened, Pass};
use std::alloc::Global;
use std::marker::Brand;
use std::snapshot::Snapshot;
use std::sync::Wait;
use std::thread::Threads;

/// A gate, its first pass and those that were split off it.
pub struct Crew {
    pub gate: Gate<Tally>,
    pub pass: Pass<Tally>,
    pub others: Vec<Pass<Tally>>,
}

/// A gate round a tally of 0, and this many passes beside its first, which have made no call.
pub fn open_crew(alloc: Global, count: usize) -> Result<Crew, NoMemory>
    ensures crew { IfOk result (λ crew. IsCrew crew.gate 0 crew.pass crew.others.items) }
    ensures count { IfOk result (λ crew. length crew.others.items ≡ count) }
    ensures none { IfOk result (λ crew. HaveAdded 0 crew.others.items) }
{
    let start = 0u64;
    let Ok(opened) = Gate::open(alloc, Tally { value: 0 }, Snapshot::of(&start)) else {
        return Err(NoMemory);
    };
    let Opened { gate, mut pass } = opened;
    let others = split_many(alloc, &gate, &mut pass, count)?;
    Ok(Crew { gate, pass, others })
}

/// The total, after all were joined into the first, the last one first.
pub fn close_crew(crew: Crew) -> u64
    requires { IsCrew crew.gate 0 crew.pass crew.others.items }
    ensures { (times : ℕ) → HaveAdded times crew.others.items
        → result ≡ (length crew.others.items * times) % 2 ^ 64 }
{
    let Crew {
        gate,
        pass,
        mut others,
    } = crew;
    others.reverse();
    let tally = close_many(gate, pass, others);
    tally.value
}

/// The total that passes make with this many calls each, each in a thread of its own.
pub fn total_beside<R: Threads + Wait + Sync>(
    rt: &R,
    alloc: Global,
    count: usize,
    times: u32,
) -> Result<u64, NoMemory>
    ensures { IfOk result (λ total. total ≡ (count * times) % 2 ^ 64) }
{
    let crew = open_crew(alloc, count)?;
    let Crew { gate, pass, others } = crew;
    let others = add_beside(rt, &gate, others, times);
    Ok(close_crew(Crew { gate, pass, others }))
}

// The two passes of a list.
fn apart(mut passes: Vec<Pass<Tally>>) -> (Pass<Tally>, Pass<Tally>)
    requires { length passes.items ≡ 2 }
    ensures { passes.items ≡ result.0 ∷ result.1 ∷ [] }
{
    let Some(two) = passes.pop() else {
        unreachable!()
    };
    let Some(one) = passes.pop() else {
        unreachable!()
    };
    (one, two)
}

// A list of two passes.
fn listed(alloc: Global, one: Pass<Tally>, two: Pass<Tally>) -> Result<Vec<Pass<Tally>>, NoMemory>
    ensures { IfOk result (λ passes. passes.items ≡ one ∷ two ∷ []) }
{
    let mut passes = Vec::new(alloc);
    passes.push(one)?;
    passes.push(two)?;
    Ok(passes)
}

/// The total of two passes that make a call each, hand each other this many glimpses, and make a call each again, each
/// in a thread of its own.
pub fn total_of_correspondents<R: Threads + Wait + Sync>(
    rt: &R,
    alloc: Global,
    times: u32,
) -> Result<u64, NoMemory>
    ensures { IfOk result (λ total. total ≡ 4) }
{
    let crew = open_crew(alloc, 2)?;
    let Crew { gate, pass, others } = crew;
    let (one, two) = apart(add_beside(rt, &gate, others, 1));
    let (left, right) = correspond_beside::<Brand, Brand, R>(rt, &gate, one, two, times);
    let others = add_beside(rt, &gate, listed(alloc, left, right)?, 1);
    Ok(close_crew(Crew { gate, pass, others }))
}
