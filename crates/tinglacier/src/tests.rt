//! The exported functions, called as C calls them.

use super::{tinglacier_refusal_text, tinglacier_run};
use pool::Node;

/// Whether a run over 8 nodes writes just this report into the room, and ends with this refusal, or with 0.
fn reports(script: &[u8], room: &mut [u8], report: &[u8], refusal: u8) -> bool {
    let mut nodes = [Node::default(); 8];
    let outcome = tinglacier_run(script, &mut nodes, 1, room);
    room.get(..outcome.length) == Some(report) && outcome.refusal == refusal
}

#[test]
fn a_script_is_run(rt: HostRuntime) {
    let script = b"N\tA\nU\n";
    assert!(rt;
        reports(
            script,
            &mut [0; 64],
            b"1\tok\n2\t0\t8\t1\nend\t2\t0\t0\n",
            0
        )
    );
    assert!(rt; reports(script, &mut [0; 16], b"1\tok\n2\t0\t8\t1\n", 20));
    assert!(rt; reports(&[b'U'; 32769], &mut [0; 64], b"", 17));
}

#[test]
fn a_text_is_cut_to_its_room(rt: HostRuntime) {
    let mut room = [b' '; 24];
    assert_eq!(rt; tinglacier_refusal_text(20, &mut room), 23);
    assert_eq!(rt; room, *b"the report does not fit ");
    let mut short = [0; 10];
    assert_eq!(rt; tinglacier_refusal_text(20, &mut short), 10);
    assert_eq!(rt; short, *b"the report");
}
