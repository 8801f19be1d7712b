//! Calls as plain values, carried out in one run.

use kinds::Name;
use pool::Node;
use register::{Action, Answer, Call, Change, Parts, Question, Refusal, Reply, run_calls};
use std::test::Fail;

/// The first line of a register whose first serial is 1.
const FIRST: Parts = Parts {
    place: 0,
    serial: 1,
};

const CALLS: [Call<'_>; 7] = [
    Call::Do(Action::Open),
    Call::Do(Action::Begin(FIRST, 5)),
    Call::Do(Action::Enter(FIRST, b"SG-7", 3, Change::Record(-30))),
    Call::Ask(Question::AsOf(FIRST, 5, b"SG-7", 9)),
    Call::Do(Action::Commit(FIRST)),
    Call::Ask(Question::AsOf(FIRST, 5, b"SG-7", 9)),
    Call::Do(Action::Retire(FIRST)),
];

/// The measured instant and the reading of an answer, where it has them.
fn reading(answer: &Answer) -> Option<(u32, i64)> {
    match answer {
        Ok(Reply::Found(Some((measured, reading)))) => {
            Some((measured.seconds(), reading.microhertz()))
        }
        _ => None,
    }
}

#[test]
fn calls_are_carried_out_in_order(rt: HostRuntime) -> Result<(), Fail> {
    let mut nodes = [Node::default(); 300];
    let mut answers = [Ok(Reply::Done); 7];
    assert_eq!(rt; run_calls::<Name>(&mut nodes, 1, &CALLS, &mut answers), 7);
    assert!(rt;
        matches!(answers[3], Err(Refusal::NoSuchLine)),
        "in a sitting"
    );
    assert_eq!(rt; reading(&answers[5]), Some((3, -30)));
    assert!(rt; answers[6].is_ok());
    assert_eq!(rt;
        run_calls::<Name>(&mut nodes, 1, &CALLS, &mut answers[..2]),
        2,
        "as many as there is room for answers"
    );
    Ok(())
}
