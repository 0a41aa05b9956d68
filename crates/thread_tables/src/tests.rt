use super::*;
use std::test::Fail;
use word_port::{Kind, PlainWords};

fn step(side: Side, kind: Kind, index: u32, first: u64, second: u64, answer: u64) -> Step {
    Step {
        side,
        kind,
        index,
        first,
        second,
        answer,
    }
}

/// Every kind and side, on three host bytes and a cell that begin at 10, 11, 12 and 100.
fn every_kind() -> [Step; 8] {
    [
        step(Side::Enclave, Kind::Load, 0, 0, 0, 10),
        step(Side::Host, Kind::Swap, 0, 200, 0, 10),
        step(Side::Racer, Kind::Load, 0, 0, 0, 200),
        step(Side::Pool, Kind::Add, 3, 5, 0, 100),
        step(Side::Pool, Kind::Cas, 3, 105, 7, 105),
        step(Side::Host, Kind::Cas, 3, 105, 9, 7),
        step(Side::Enclave, Kind::Add, 3, u64::MAX, 0, 7),
        step(Side::Host, Kind::Load, 3, 0, 0, 6),
    ]
}

/// Makes these steps, whatever the words answer.
fn play<P: WordPort>(port: &mut P, steps: &[Step]) {
    for step in steps {
        if port.spare() == 0 || step.index >= port.words() {
            return;
        }
        let on_cell = step.index >= port.host();
        match step.kind {
            Kind::Load => {
                port.load(step.side, step.index);
            }
            Kind::Swap => {
                if step.first < 256 {
                    port.swap(step.side, step.index, step.first);
                }
            }
            Kind::Add => {
                if on_cell {
                    port.add(step.side, step.index, step.first);
                }
            }
            Kind::Cas => {
                if on_cell {
                    port.cas(step.side, step.index, step.first, step.second);
                }
            }
        }
    }
}

#[test]
fn plain_words_and_a_table_of_one_seat_have_one_log(rt: HostRuntime) -> Result<(), Fail> {
    let steps = every_kind();
    let mut plain = PlainWords::new(rt.alloc(), &[10, 11, 12, 100], 3, &[], 8)?;
    play(&mut plain, &steps);
    let (table, keeper) = make(rt.alloc(), &[10, 11, 12, 100], 3, 8)?;
    let mut bound = Bound::bind(&table, keeper);
    play(&mut bound, &steps);
    assert_eq!(rt; bound.glance(3), 6);
    assert_eq!(rt; bound.glance(4), 0);
    assert!(rt; plain.log() == steps.as_slice());
    assert!(rt; bound.log() == steps.as_slice());
    Ok(())
}

/// Whichever swap comes first finds the first byte, and the other one what it left.
#[test]
fn two_threads_in_a_scope(rt: HostRuntime) -> Result<(), Fail> {
    let logs = two_in_a_scope(&rt, rt.alloc())?;
    assert_eq!(rt; logs.keeper.len(), 1);
    assert_eq!(rt; logs.first.len(), 4);
    assert_eq!(rt; logs.second.len(), 4);
    let (first, second) = (logs.first[0].answer, logs.second[0].answer);
    assert!(rt; (first == 200 && second == 7) || (first == 7 && second == 200));
    assert_eq!(rt; logs.first[1].answer, 7);
    assert_eq!(rt; logs.second[1].answer, 7);
    Ok(())
}

#[test]
fn a_seat_is_joined_while_another_runs(rt: HostRuntime) -> Result<(), Fail> {
    let logs = joined_while_one_runs(&rt, rt.alloc())?;
    assert_eq!(rt; logs.keeper.len(), 0);
    assert_eq!(rt; logs.first.len(), 4);
    assert_eq!(rt; logs.second.len(), 4);
    assert_eq!(rt; logs.first[0].answer, 200);
    assert_eq!(rt; logs.first[3].answer, 3);
    assert_eq!(rt; logs.second[2].answer, 5);
    assert_eq!(rt; logs.second[3].answer, 8);
    Ok(())
}

#[test]
fn eight_threads_count(rt: HostRuntime) -> Result<(), Fail> {
    assert_eq!(rt; counted_by_eight(&rt, rt.alloc())?, 800_000);
    Ok(())
}
