//! What `explain` writes: worked traces.
use crate::traces::{
    BARE_VALUE, BARE_VALUE_AGAIN, DOUBLE_LIST, ENDS, FORGOTTEN_WEAK, LEAST_WAY, SCOPE_AND_PLACES,
    SINCE_IS_OF_THE_PLACE, TWO_CYCLES, TWO_HOLD_EACH_OTHER, WEAK_TO_ITSELF,
};
use command_serve::{Exit, serve_explain};
use std::alloc::Global;
use std::process::Abort;
use trace_types::devices::{StdSink, StdSource};

fn explained(alloc: Global, input: &[u8], objects: &[u32], with_lives: bool) -> (Exit, Vec<u8>) {
    let mut output = Vec::new(alloc);
    let mut source = StdSource::new(input);
    let mut sink = StdSink::new(&mut output);
    let exit = serve_explain(alloc, &mut source, &mut sink, objects, with_lives);
    drop(sink);
    (exit, output)
}

fn expect(rt: &(impl Abort + AllocGlobal), ended: (Exit, Vec<u8>), exit: Exit, text: &str) {
    assert!(rt; ended.0 == exit);
    assert!(rt; ended.1.as_slice() == text.as_bytes());
}

#[test]
fn two_objects_hold_each_other(rt: HostRuntime) {
    let text = "object 1 alive
  held by field 2.0 since 8
  leaked since 13 in a cycle among 2 objects
    through field 1.0 since 4
    through field 2.0 since 8
  retains 2 objects
total 2 leaks 1 cycles 0 husks
";
    expect(
        &rt,
        explained(rt.alloc(), TWO_HOLD_EACH_OTHER, &[], false),
        Exit::Fine,
        text,
    );
    let lives = "object 1 alive
  1 new 1/0 +handle 0
  5 cell_new 1/0 -handle 0 +cell 0
  6 cell_load 2/0 +handle 3
  7 downgrade 2/1 +weak handle 4
  8 set 2/1 -handle 3 +field 2.0
  10 cell_swap 1/1 -cell 0
  12 upgrade 2/1 +handle 6
  13 drop 1/1 -handle 6
  14 drop 1/0 -weak handle 4
  held by field 2.0 since 8
  leaked since 13 in a cycle among 2 objects
    through field 1.0 since 4
    through field 2.0 since 8
  retains 2 objects
object 2 alive
  2 new 1/0 +handle 1
  3 clone 2/0 +handle 2
  4 set 2/0 -handle 2 +field 1.0
  11 drop 1/0 -handle 1
  held by field 1.0 since 4
  leaked since 13 in a cycle among 2 objects
    through field 2.0 since 8
    through field 1.0 since 4
  retains 2 objects
";
    expect(
        &rt,
        explained(rt.alloc(), TWO_HOLD_EACH_OTHER, &[1, 2], true),
        Exit::Fine,
        lives,
    );
}

#[test]
fn an_object_under_two_cycles_leaks_with_the_later(rt: HostRuntime) {
    let text = "object 3 alive
  held by field 3.0 since 5
  leaked since 11 in a cycle among 1 objects
    through field 3.0 since 5
  retains 1 objects
object 6 alive
  held by field 6.0 since 8
  leaked since 9 in a cycle among 1 objects
    through field 6.0 since 8
  retains 1 objects
total 3 leaks 2 cycles 0 husks
";
    expect(
        &rt,
        explained(rt.alloc(), TWO_CYCLES, &[], false),
        Exit::Fine,
        text,
    );
    let lives = "object 1 alive
  1 new 1/0 +handle 9
  2 clone 2/0 +handle 8
  3 new 2/0 -handle 9 +field 3.1
  6 new 2/0 -handle 8 +field 6.1
  held by field 3.1 since 3
  held by field 6.1 since 6
  leaked since 11 under 3
    through field 3.1 since 3
  retains 1 objects
object 3 alive
  3 new 1/0 +handle 0
  4 clone 2/0 +handle 1
  5 set 2/0 -handle 1 +field 3.0
  11 drop 1/0 -handle 0
  held by field 3.0 since 5
  leaked since 11 in a cycle among 1 objects
    through field 3.0 since 5
  retains 1 objects
object 6 alive
  6 new 1/0 +handle 2
  7 clone 2/0 +handle 3
  8 set 2/0 -handle 3 +field 6.0
  9 drop 1/0 -handle 2
  held by field 6.0 since 8
  leaked since 9 in a cycle among 1 objects
    through field 6.0 since 8
  retains 1 objects
";
    expect(
        &rt,
        explained(rt.alloc(), TWO_CYCLES, &[1, 3, 6], true),
        Exit::Fine,
        lives,
    );
}

#[test]
fn the_way_round_a_cycle_is_the_shortest(rt: HostRuntime) {
    let text = "object 1 alive
  held by field 2.1 since 7
  leaked since 17 in a cycle among 3 objects
    through field 1.0 since 5
    through field 2.1 since 7
  retains 1 objects
total 5 leaks 1 cycles 0 husks
";
    expect(
        &rt,
        explained(rt.alloc(), DOUBLE_LIST, &[], false),
        Exit::Fine,
        text,
    );
    let more = "object 1 alive
  held by field 2.1 since 7
  leaked since 17 in a cycle among 3 objects
    through field 1.0 since 5
    through field 2.1 since 7
  retains 1 objects
object 2 alive
  held by field 1.0 since 5
  held by field 3.1 since 11
  leaked since 17 in a cycle among 3 objects
    through field 2.0 since 9
    through field 3.1 since 11
  retains 5 objects
object 3 alive
  held by field 2.0 since 9
  leaked since 17 in a cycle among 3 objects
    through field 3.1 since 11
    through field 2.0 since 9
  retains 3 objects
object 13 alive
  held by field 3.2 since 14
  leaked since 17 under 3
    through field 3.2 since 14
  retains 2 objects
object 12 alive
  held by field 13.0 since 13
  leaked since 17 under 3
    through field 3.2 since 14
    through field 13.0 since 13
  retains 1 objects
";
    expect(
        &rt,
        explained(rt.alloc(), DOUBLE_LIST, &[1, 2, 3, 13, 12], false),
        Exit::Fine,
        more,
    );
}

#[test]
fn a_weak_keeps_a_husk(rt: HostRuntime) {
    let text = "object 2 destroyed 12
  kept by weak field 1.1 since 4
  kept by weak field 6.1 since 8
  husk
object 6 alive
  held by field 6.0 since 10
  leaked since 11 in a cycle among 1 objects
    through field 6.0 since 10
  retains 1 objects
total 1 leaks 1 cycles 1 husks
";
    expect(
        &rt,
        explained(rt.alloc(), FORGOTTEN_WEAK, &[], false),
        Exit::Fine,
        text,
    );
    let lives = "object 2 destroyed 12
  2 new 1/0 +handle 1
  3 downgrade 1/1 +weak handle 2
  4 set 1/1 -weak handle 2 +weak field 1.1
  7 downgrade 1/2 +weak handle 5
  8 set 1/2 -weak handle 5 +weak field 6.1
  12 drop 0/2 -handle 1 destroyed
  kept by weak field 1.1 since 4
  kept by weak field 6.1 since 8
  husk
";
    expect(
        &rt,
        explained(rt.alloc(), FORGOTTEN_WEAK, &[2], true),
        Exit::Fine,
        lives,
    );
}

#[test]
fn a_weak_to_itself_holds_nothing(rt: HostRuntime) {
    let text = "object 1 alive
  held by field 1.1 since 3
  kept by weak field 1.0 since 1
  leaked since 5 in a cycle among 1 objects
    through field 1.1 since 3
  retains 1 objects
total 1 leaks 1 cycles 0 husks
";
    expect(
        &rt,
        explained(rt.alloc(), WEAK_TO_ITSELF, &[], false),
        Exit::Fine,
        text,
    );
    let lives = "object 1 alive
  1 new_cyclic 1/1 +handle 0 +weak field 1.0
  2 clone 2/1 +handle 1
  3 set 2/1 -handle 1 +field 1.1
  5 drop 1/1 -handle 0
  held by field 1.1 since 3
  kept by weak field 1.0 since 1
  leaked since 5 in a cycle among 1 objects
    through field 1.1 since 3
  retains 1 objects
object 4 alive
  4 new_cyclic 1/1 +handle 2 +weak field 4.0
  held by handle 2 since 4
  kept by weak field 4.0 since 4
  reached by handle 2 since 4
  retains 1 objects
";
    expect(
        &rt,
        explained(rt.alloc(), WEAK_TO_ITSELF, &[1, 4], true),
        Exit::Fine,
        lives,
    );
}

#[test]
fn the_first_of_equal_ways_is_told(rt: HostRuntime) {
    let text = "object 1 alive
  held by field 4.1 since 4
  held by field 5.0 since 5
  held by field 9.2 since 9
  reached by handle 3 since 4
    through field 4.1 since 4
  retains 1 objects
object 5 alive
  held by field 7.0 since 7
  held by field 12.0 since 12
  reached by handle 0 since 12
    through field 12.0 since 12
  retains 1 objects
object 12 alive
  held by handle 0 since 12
  held by cell 1 since 14
  reached by handle 0 since 12
  retains 1 objects
";
    expect(
        &rt,
        explained(rt.alloc(), LEAST_WAY, &[1, 5, 12], false),
        Exit::Fine,
        text,
    );
}

#[test]
fn a_date_belongs_to_a_place(rt: HostRuntime) {
    let text = "object 1 moved 12
  kept by weak handle 5 since 11
  husk
object 12 alive
  held by handle 0 since 12
  reached by handle 0 since 12
  retains 1 objects
object 14 alive
  held by handle 6 since 14
  reached by handle 6 since 14
  retains 1 objects
";
    expect(
        &rt,
        explained(rt.alloc(), SINCE_IS_OF_THE_PLACE, &[1, 12, 14], false),
        Exit::Fine,
        text,
    );
    let lives = "object 2 alive
  2 new 1/0 +handle 1
  3 clone 2/0 +handle 2
  4 set 2/0 -handle 2 +field 1.0
  5 clone 3/0 +handle 3
  6 set 2/0 -handle 3
  9 set 1/0 -handle 1
  12 make_mut 1/0 -field 1.0 +field 12.0
  14 make_mut 2/0 +field 14.0
  15 take 2/0 -field 12.0 +handle 7
  held by handle 7 since 15
  held by field 14.0 since 14
  reached by handle 7 since 15
  retains 1 objects
";
    expect(
        &rt,
        explained(rt.alloc(), SINCE_IS_OF_THE_PLACE, &[2], true),
        Exit::Fine,
        lives,
    );
}

#[test]
fn the_end_of_a_scope_is_an_operation_of_a_life(rt: HostRuntime) {
    let text = "object 1 alive
  held by handle 0 since 1
  reached by handle 0 since 1
  retains 1 objects
";
    expect(
        &rt,
        explained(rt.alloc(), SCOPE_AND_PLACES, &[1], false),
        Exit::Fine,
        text,
    );
    let lives = "object 2 alive
  2 new 1/0 +handle 1
  3 clone 2/0 +handle 2
  4 set 2/0 -handle 2 +field 1.0
  5 downgrade 2/1 +weak handle 3
  6 set 1/1 -weak handle 3 -field 1.0 +weak field 1.0
  7 clone 2/1 +handle 4
  8 cell_new 2/1 -handle 4 +cell 0
  9 clone 3/1 +handle 5
  10 clone 4/1 +handle 6
  11 cell_cas 3/1 -handle 6
  12 scope_end 2/1 -handle 1
  14 cell_cas 2/1 -handle 5 +handle 7
  15 drop 1/1 -handle 7
  held by cell 0 since 8
  kept by weak field 1.0 since 6
  reached by cell 0 since 8
  retains 1 objects
";
    expect(
        &rt,
        explained(rt.alloc(), SCOPE_AND_PLACES, &[2], true),
        Exit::Fine,
        lives,
    );
}

#[test]
fn a_bare_value_is_a_root(rt: HostRuntime) {
    let text = "object 1 alive
  1 new 1/0 +handle 0
  2 clone 2/0 +handle 1
  3 new 2/0 -handle 1 +field 3.1
  5 try_unwrap 2/0 -field 3.1 +handle 2.1
  6 clone 3/0 +handle 4
  7 set 3/0 -handle 4 +handle 2.0
  8 drop 2/0 -handle 0
  held by handle 2.0 since 7
  held by handle 2.1 since 5
  reached by handle 2.0 since 7
  retains 1 objects
object 3 unwrapped 5
  3 new 1/0 +handle 2
  4 downgrade 1/1 +weak handle 3
  5 try_unwrap 0/1 -handle 2 unwrapped
  kept by weak handle 3 since 4
  husk
";
    expect(
        &rt,
        explained(rt.alloc(), BARE_VALUE, &[1, 3], true),
        Exit::Fine,
        text,
    );
}

#[test]
fn a_value_gets_an_allocation_again(rt: HostRuntime) {
    let text = "object 1 alive
  1 new 1/0 +handle 0
  2 new 1/0 -handle 0 +field 2.0
  3 try_unwrap 1/0 -field 2.0 +handle 2.0
  4 new_from 1/0 -handle 2.0 +field 4.0
  held by field 4.0 since 4
  reached by handle 4 since 5
    through field 5.0 since 5
    through field 4.0 since 4
  retains 1 objects
object 4 alive
  4 new_from 1/0 +handle 3
  5 new 1/0 -handle 3 +field 5.0
  held by field 5.0 since 5
  reached by handle 4 since 5
    through field 5.0 since 5
  retains 2 objects
object 2 unwrapped 3 freed 3
  2 new 1/0 +handle 2
  3 try_unwrap 0/0 -handle 2 unwrapped freed
";
    expect(
        &rt,
        explained(rt.alloc(), BARE_VALUE_AGAIN, &[1, 4, 2], true),
        Exit::Fine,
        text,
    );
}

#[test]
fn each_end_is_told(rt: HostRuntime) {
    let text = "object 8 unwrapped 10
  kept by weak handle 4 since 9
  husk
total 0 leaks 0 cycles 1 husks
";
    expect(
        &rt,
        explained(rt.alloc(), ENDS, &[], false),
        Exit::Fine,
        text,
    );
    let lives = "object 1 moved 3 freed 4
  1 new 1/0 +handle 0
  2 downgrade 1/1 +weak handle 1
  3 make_mut 0/1 -handle 0 moved
  4 drop 0/0 -weak handle 1 freed
object 3 unwrapped 5 freed 5
  3 make_mut 1/0 +handle 0
  5 try_unwrap 0/0 -handle 0 unwrapped freed
object 6 destroyed 7 freed 7
  6 new 1/0 +handle 2
  7 drop 0/0 -handle 2 destroyed freed
object 8 unwrapped 10
  8 new 1/0 +handle 3
  9 downgrade 1/1 +weak handle 4
  10 into_inner 0/1 -handle 3 unwrapped
  kept by weak handle 4 since 9
  husk
";
    expect(
        &rt,
        explained(rt.alloc(), ENDS, &[1, 3, 6, 8], true),
        Exit::Fine,
        lives,
    );
}

#[test]
fn the_first_number_that_is_no_object_is_told(rt: HostRuntime) {
    let text = "no object 2
";
    expect(
        &rt,
        explained(rt.alloc(), ENDS, &[6, 2], false),
        Exit::Trace,
        text,
    );
}

#[test]
fn an_empty_trace_has_the_total_alone(rt: HostRuntime) {
    let none = "total 0 leaks 0 cycles 0 husks\n";
    expect(&rt, explained(rt.alloc(), b"", &[], true), Exit::Fine, none);
    let missing = "no object 1\n";
    expect(
        &rt,
        explained(rt.alloc(), b"", &[1], false),
        Exit::Trace,
        missing,
    );
}

#[test]
fn a_faulty_line_comes_before_a_missing_object(rt: HostRuntime) {
    let fault = "fault line 1 NotJson\n";
    expect(
        &rt,
        explained(rt.alloc(), b"--\n", &[7], false),
        Exit::Trace,
        fault,
    );
}
