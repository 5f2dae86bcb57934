//! What no clause says: that the calls find memory, and that a pool stands beside a plain list through random calls.

ghost use Rattle.std.specs.Prelude.{◌<◌};

use crate::{NoMemory, Pool};
use std::hash::RandomState;
use std::test::*;

// How many values the random calls choose from.
const VALUES: usize = 48;

// A generator of random numbers that always gives the same ones.
#[derive(Drop)]
struct Dice {
    seed: u64,
}

impl Dice {
    // A number below the bound.
    fn below(&mut self, bound: usize) -> usize
        requires { 0 < bound }
        ensures { result < bound }
    {
        self.seed = self
            .seed
            .wrapping_mul(6364136223846793005)
            .wrapping_add(1442695040888963407);
        (self.seed >> 33) as usize % bound
    }
}

// The same items and noted numbers, as lists that are searched.
#[derive(Drop)]
struct Plain {
    items: Vec<Option<(usize, usize)>>,
    idle: Vec<usize>,
}

impl Plain {
    fn find(&self, value: usize) -> Option<usize> {
        self.items
            .iter()
            .position(|item| item.is_some_and(|(stands, _)| stands == value))
    }

    // Puts an item under a number, and tells whether that was free or the next new one.
    fn add(&mut self, number: usize, value: usize, tag: usize) -> Result<bool, NoMemory> {
        let item = Some((value, tag));
        if number == self.items.len() {
            self.items.push(item)?;
            return Ok(true);
        }
        match self.items.get_mut(number) {
            Some(place) => {
                let free = place.is_none();
                *place = item;
                Ok(free)
            }
            None => Ok(false),
        }
    }

    fn note(&mut self, number: usize) -> Result<(), NoMemory> {
        self.forget(number);
        self.idle.push(number)?;
        Ok(())
    }

    fn forget(&mut self, number: usize) {
        self.idle.retain(|&other| other != number);
    }

    fn take_out(&mut self, number: usize) {
        if let Some(place) = self.items.get_mut(number) {
            *place = None;
        }
        self.forget(number);
    }
}

// Notes a number that has a value.
fn note(pool: &mut Pool<usize>, number: usize) {
    if pool.get(number).is_some() {
        pool.note(number);
    }
}

// Adds a value that doesn't stand, and notes, forgets or takes out one that does. It tells whether the lists agree.
fn turn(pool: &mut Pool<usize>, plain: &mut Plain, dice: &mut Dice) -> Result<bool, NoMemory> {
    let value = dice.below(VALUES);
    let tag = dice.below(1_000);
    let Some(number) = pool.find(&value) else {
        let agrees = plain.find(value).is_none();
        let number = pool.add(value, tag)?;
        return Ok(plain.add(number, value, tag)? && agrees);
    };
    let agrees = plain.find(value) == Some(number);
    match dice.below(4) {
        0 => {
            plain.forget(number);
            pool.forget(number);
            Ok(agrees)
        }
        1 => {
            plain.take_out(number);
            Ok(pool.take_out(number) == Some(value) && agrees)
        }
        _ => {
            plain.note(number)?;
            note(pool, number);
            Ok(agrees)
        }
    }
}

// Whether a number has what the plain list has, and the same number is noted first.
fn agrees(pool: &Pool<usize>, plain: &Plain, number: usize) -> bool {
    let item = plain.items.get(number).copied().flatten();
    pool.get(number).copied() == item.map(|(value, _)| value)
        && pool.tag(number) == item.map(|(_, tag)| tag)
        && pool.first_idle() == plain.idle.first().copied()
        && pool.len() == plain.items.len()
}

#[test]
fn random_calls_keep_to_a_plain_list(rt: HostRuntime) -> Result<(), Fail> {
    let mut pool = Pool::new(rt.alloc(), RandomState::new(&rt)?);
    let mut plain = Plain {
        items: Vec::new(rt.alloc()),
        idle: Vec::new(rt.alloc()),
    };
    let mut dice = Dice { seed: 1 };
    for count in 0..20_000 {
        assert!(rt; turn(&mut pool, &mut plain, &mut dice)?, "turn {count}");
        let number = dice.below(VALUES);
        assert!(rt; agrees(&pool, &plain, number), "{number} after {count}");
    }
    Ok(())
}

// Adds each number below the bound, or finds it.
fn fill(pool: &mut Pool<[u64; 3]>, bound: u64) -> Result<(), NoMemory> {
    for count in 0..bound {
        let value = [count, 0, 7];
        if pool.find(&value).is_none() {
            pool.add(value, 0)?;
        }
    }
    Ok(())
}

#[test]
fn a_million_keys_find_memory_and_their_numbers_again(rt: HostRuntime) -> Result<(), Fail> {
    let mut pool = Pool::new(rt.alloc(), RandomState::new(&rt)?);
    fill(&mut pool, 1_000_000)?;
    assert_eq!(rt; pool.len(), 1_000_000);
    assert_eq!(rt; pool.find(&[777_777, 0, 7]), Some(777_777));
    assert_eq!(rt; pool.take_out(777_777), Some([777_777, 0, 7]));
    fill(&mut pool, 1_000_001)?;
    assert_eq!(rt;
        pool.find(&[777_777, 0, 7]),
        Some(777_777),
        "the freed number is used again"
    );
    assert_eq!(rt; pool.len(), 1_000_001);
    Ok(())
}
