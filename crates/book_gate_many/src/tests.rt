//! What no clause says: that the calls return, and find memory.
use crate::crew::{close_crew, open_crew, total_beside, total_of_correspondents};
use std::test::Fail;

#[test]
fn four_threads_make_a_million_calls(rt: HostRuntime) -> Result<(), Fail> {
    assert_eq!(rt; total_beside(&rt, rt.alloc(), 4, 250_000)?, 1_000_000);
    Ok(())
}

// With more threads than processors, those that wait have to sleep: calls that turn round instead take minutes.
#[test]
fn sixteen_threads_make_calls_on_few_processors(rt: HostRuntime) -> Result<(), Fail> {
    assert_eq!(rt; total_beside(&rt, rt.alloc(), 16, 4_000)?, 64_000);
    Ok(())
}

#[test]
fn two_threads_hand_each_other_a_hundred_thousand_glimpses(rt: HostRuntime) -> Result<(), Fail> {
    assert_eq!(rt; total_of_correspondents(&rt, rt.alloc(), 50_000)?, 4);
    Ok(())
}

#[test]
fn a_gate_is_closed_with_no_pass_split_off_and_with_two_thousand(
    rt: HostRuntime,
) -> Result<(), Fail> {
    assert_eq!(rt; close_crew(open_crew(rt.alloc(), 0)?), 0);
    assert_eq!(rt; close_crew(open_crew(rt.alloc(), 2_000)?), 0);
    Ok(())
}
