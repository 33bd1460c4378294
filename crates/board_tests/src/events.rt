//! Tests of events: their words, and the numbers of faults.

use clr_base::{Handle, SigId};
use load_events::{Answer, Event, LoadFault};
use std::test::Fail;

#[test]
fn words_of_events(rt: HostRuntime) -> Result<(), Fail> {
    let ask = Event::Ask {
        caller: 0,
        context: None,
        sig: SigId(0),
    };
    let find = Event::Find {
        caller: 2,
        context: Some(Handle(3)),
        sig: SigId(5),
        found: true,
    };
    let loaded = Event::Done {
        caller: 1,
        outcome: Answer::Loaded {
            handle: Handle(9),
            first: true,
        },
    };
    let refused = Event::Done {
        caller: 7,
        outcome: Answer::Refused(LoadFault::NotInProfile),
    };
    let words = [ask.word(), find.word(), loaded.word(), refused.word()];
    assert!(rt; words == [0x1, 0x14_0002_0013, 0x4_800d, 0x7_003e]);
    Ok(())
}

#[test]
fn words_of_no_event(rt: HostRuntime) -> Result<(), Fail> {
    let words = [0x0, 0x7, 0x6, 0x7_8006, 0x4_0000_000c];
    assert!(rt; words.iter().all(|word| Event::read(*word).is_none()));
    Ok(())
}

#[test]
fn faults_in_their_order(rt: HostRuntime) -> Result<(), Fail> {
    let order = [
        LoadFault::NotFound,
        LoadFault::Arity,
        LoadFault::BadArgument,
        LoadFault::BaseCycle,
        LoadFault::Expanding,
        LoadFault::BadParent,
        LoadFault::BadInterface,
        LoadFault::BadOverride,
        LoadFault::NoMethod,
        LoadFault::BadLayout,
        LoadFault::LayoutDeep,
        LoadFault::Constraint,
        LoadFault::TooLarge,
        LoadFault::NotInProfile,
    ];
    assert!(rt;
        order
            .iter()
            .zip(1..15)
            .all(|(fault, number)| fault.number() == number)
    );
    Ok(())
}
