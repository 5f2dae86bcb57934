//! Any number of passes, split off one pass and joined into it.
ghost use Rattle.std.specs.Prelude.{◌≡◌, IfOk, All, Contains, [], map};
ghost use Rattle.book_gate_many.specs.Many.{IsMany, IsAllJoined, Closes};

use book_gate::{Gate, Held, NoMemory, Pass};
use std::alloc::Global;

/// Splits `count` passes off a pass: they have its next names, have seen as much as it and have made no call. Where
/// there is no memory, or the pass has no room left, those that were split off are lost.
pub fn split_many<T: Held + Drop>(
    alloc: Global,
    gate: &Gate<T>,
    pass: &mut Pass<T>,
    count: usize,
) -> Result<Vec<Pass<T>>, NoMemory>
    requires { pass.old.gate ≡ gate.now }
    ensures { IfOk result (λ passes. IsMany pass.old count pass.new passes.items) }
{
    let mut passes = Vec::new(alloc);
    // `i` is for the invariant, which counts the passes.
    for i in 0..count {
        let new = gate.split(pass)?;
        passes.push(new)?;
    }
    Ok(passes)
}

/// Joins passes into a pass, in the order of the list, which may be any. It has then seen what each of them had, and
/// each one's entries are those that it had made.
pub fn join_many<T: Held + Drop>(gate: &Gate<T>, pass: &mut Pass<T>, passes: Vec<Pass<T>>)
    requires pass { pass.old.gate ≡ gate.now }
    requires passes { All (λ other. other.gate ≡ gate.now) passes.items }
    ensures { IsAllJoined T.law pass.old passes.items pass.new }
{
    for other in passes {
        gate.join(pass, other);
    }
}

/// Closes a gate whose first pass gave out no names but those of these passes, which gave out none. They are joined in
/// the order of the list, which may be any.
pub fn close_many<T: Held + Drop>(gate: Gate<T>, mut pass: Pass<T>, passes: Vec<Pass<T>>) -> T
    requires first { (pass.gate ≡ gate) × (pass.name ≡ []) }
    requires passes { All (λ other. other.gate ≡ gate) passes.items }
    requires names { (name : _) → Contains pass.split name
        → Contains (map (λ other. other.name) passes.items) name }
    requires leaves { (other : _) → Contains passes.items other → other.split ≡ [] }
    ensures { Closes T.stands T.law pass passes.items result }
{
    join_many(&gate, &mut pass, passes);
    gate.close(pass)
}
