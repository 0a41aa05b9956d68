//! Steps on plain words, with races between them.

ghost use Rattle.std.specs.Prelude.{◌<◌, ◌≤◌, All};
ghost use Rattle.word_port.specs.Plain.{AreInOrder};

use std::alloc::{AllocError, Global};
use std::process::Abort;
use std::test::Fail;
use word_port::{Kind, PlainWords, Race, Side, Step, WordPort};

/// Three host bytes and a cell.
fn open(alloc: Global, races: &[Race], limit: u32) -> Result<PlainWords, AllocError>
    requires order { AreInOrder races.now }
    requires first { All (λ r. 1 ≤ r.at) races.now }
    requires aims { All (λ r. r.index < 3) races.now }
{
    PlainWords::new(alloc, &[10, 11, 12, 100], 3, races, limit)
}

/// Makes a step as the given one, and expects its answer.
fn expect<R: Abort>(rt: &R, port: &mut PlainWords, step: Step) {
    assert!(rt; port.spare() > 0 && step.index < port.words());
    let answer = match step.kind {
        Kind::Load => port.load(step.side, step.index),
        Kind::Swap => {
            assert!(rt; step.first < 256);
            port.swap(step.side, step.index, step.first)
        }
        Kind::Add => {
            assert!(rt; step.index >= port.host());
            port.add(step.side, step.index, step.first)
        }
        Kind::Cas => {
            assert!(rt; step.index >= port.host());
            port.cas(step.side, step.index, step.first, step.second)
        }
    };
    assert_eq!(rt; answer, step.answer);
}

fn load(side: Side, index: u32, answer: u64) -> Step {
    Step {
        side,
        kind: Kind::Load,
        index,
        first: 0,
        second: 0,
        answer,
    }
}

#[test]
fn races_come_just_before_their_access(rt: HostRuntime) -> Result<(), Fail> {
    let races = [
        Race {
            at: 1,
            index: 0,
            value: 50,
        },
        Race {
            at: 3,
            index: 1,
            value: 60,
        },
        Race {
            at: 3,
            index: 1,
            value: 61,
        },
        Race {
            at: 5,
            index: 2,
            value: 70,
        },
        Race {
            at: 6,
            index: 2,
            value: 80,
        },
    ];
    let mut port = open(rt.alloc(), &races, 20)?;
    let table = [
        load(Side::Enclave, 0, 50),
        load(Side::Enclave, 1, 11),
        load(Side::Host, 1, 11),
        load(Side::Enclave, 3, 100),
        load(Side::Enclave, 0, 50),
        load(Side::Racer, 1, 61),
        load(Side::Pool, 2, 12),
        load(Side::Enclave, 1, 61),
        load(Side::Enclave, 2, 70),
    ];
    for step in table {
        expect(&rt, &mut port, step);
    }
    assert_eq!(rt; port.glance(2), 70, "the last race is not reached");
    assert_eq!(rt; port.glance(4), 0);
    assert_eq!(rt; port.log().len(), 9);
    assert_eq!(rt; port.spare(), 11);
    Ok(())
}

#[test]
fn words_change_by_kind(rt: HostRuntime) -> Result<(), Fail> {
    let mut port = open(rt.alloc(), &[], 6)?;
    let table = [
        (Kind::Swap, 0, 255, 0, 10),
        (Kind::Add, 3, u64::MAX, 0, 100),
        (Kind::Cas, 3, 99, 7, 99),
        (Kind::Cas, 3, 99, 8, 7),
        (Kind::Load, 0, 0, 0, 255),
        (Kind::Load, 3, 0, 0, 7),
    ];
    for (kind, index, first, second, answer) in table {
        expect(
            &rt,
            &mut port,
            Step {
                side: Side::Host,
                kind,
                index,
                first,
                second,
                answer,
            },
        );
    }
    Ok(())
}
