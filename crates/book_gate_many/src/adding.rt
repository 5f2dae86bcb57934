//! Passes that make calls of a tally.
ghost use Rattle.std.specs.Prelude.{◌≡◌, All, length};
ghost use Rattle.book_gate_many.specs.Adding.{Adds, EachAdds};

use crate::tally::{Add, Tally};
use book_gate::{Gate, Pass};
use std::sync::Wait;
use std::thread;
use std::thread::Threads;

/// Adds 1 this many times.
pub fn add(rt: &impl Wait, gate: &Gate<Tally>, pass: &mut Pass<Tally>, times: u32)
    requires { pass.old.gate ≡ gate.now }
    ensures { Adds times pass.old pass.new }
{
    // `i` is for the invariant, which counts the calls.
    for i in 0..times {
        gate.enter(rt, pass, Add { by: 1 });
    }
}

// Each pass of a slice adds 1 this many times, in a thread of its own.
fn add_each<R: Threads + Wait + Sync>(
    rt: &R,
    gate: &Gate<Tally>,
    passes: &mut [Pass<Tally>],
    times: u32,
)
    requires { All (λ pass. pass.gate ≡ gate.now) passes.old }
    ensures { EachAdds times passes.old passes.new }
{
    let count = passes.len();
    if count > 0 {
        thread::for_each_mut(rt, passes, count, &|_, pass| add(rt, gate, pass, times));
    }
}

/// Each pass adds 1 this many times, in a thread of its own.
pub fn add_beside<R: Threads + Wait + Sync>(
    rt: &R,
    gate: &Gate<Tally>,
    mut passes: Vec<Pass<Tally>>,
    times: u32,
) -> Vec<Pass<Tally>>
    requires { All (λ pass. pass.gate ≡ gate.now) passes.items }
    ensures len { length result.items ≡ length passes.items }
    ensures each { EachAdds times passes.items result.items }
{
    add_each(rt, gate, &mut passes, times);
    passes
}
