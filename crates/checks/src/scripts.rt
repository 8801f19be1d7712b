//! Scripts and their reports, fields and their readings.

use pool::Node;
use register::Refusal;
use script::{Lexer, Stopped, run};
use std::test::Fail;

/// How a run over these nodes ended: the report's length, and with it the refusal's number where it was refused.
fn outcome_over(nodes: &mut [Node], script: &[u8], out: &mut [u8]) -> Result<usize, (usize, u8)> {
    run(script, nodes, 1, out).map_err(|stopped| (stopped.length, u8::from(stopped.why)))
}

/// How a run over 8 nodes ended.
fn outcome(script: &[u8], out: &mut [u8]) -> Result<usize, (usize, u8)> {
    let mut nodes = [Node::default(); 8];
    outcome_over(&mut nodes, script, out)
}

/// Whether the script gives just this report over these nodes.
fn reports_over(nodes: &mut [Node], script: &[u8], report: &[u8]) -> bool {
    let mut out = [0; 512];
    let ended = outcome_over(nodes, script, &mut out);
    ended.is_ok_and(|length| out.get(..length) == Some(report))
}

/// Whether the script gives just this report over 8 nodes, which are too few for an entry.
fn reports(script: &[u8], report: &[u8]) -> bool {
    let mut nodes = [Node::default(); 8];
    reports_over(&mut nodes, script, report)
}

/// Whether the script gives just this report over 1,024 nodes.
fn reports_amply(script: &[u8], report: &[u8]) -> bool {
    let mut nodes = [Node::default(); 1024];
    reports_over(&mut nodes, script, report)
}

/// The instant that the first field of a line is read as.
fn instant(line: &[u8]) -> Option<u32> {
    Lexer::new(line, 0, line.len()).next()?.instant()
}

/// The reading that the first field of a line is read as.
fn reading(line: &[u8]) -> Option<i64> {
    Lexer::new(line, 0, line.len()).next()?.reading()
}

#[test]
fn lines_and_the_end_are_reported(rt: HostRuntime) {
    assert!(rt; reports(b"", b"end\t0\t0\t0\n"), "the empty script");
    assert!(rt; reports(b"\n\n", b"end\t2\t0\t0\n"), "empty lines count");
    assert!(rt;
        reports(b"\nU", b"2\t0\t8\t0\nend\t2\t0\t0\n"),
        "the last line feed may lack"
    );
    assert!(rt;
        reports(
            b"N\tA\nD\tA\nD\tA\n",
            b"1\tok\n2\tok\n3\tno\t14\nend\t3\t1\t0\n",
        )
    );
}

#[test]
fn unreadable_lines_are_refused(rt: HostRuntime) {
    let lines: [&[u8]; 12] = [
        b"Z",
        b"n\tA",
        b"\t",
        b"N",
        b"N\t",
        b"N\tAB",
        b"N\tA\t",
        b"N\tA\tB",
        b"NN\tA",
        b"U\t",
        b"U\r",
        b"S\tA\t4294967296",
    ];
    for line in lines {
        assert!(rt; reports(line, b"1\tno\t18\nend\t1\t1\t0\n"));
    }
    assert!(rt;
        reports(b"N\ta\n", b"1\tno\t12\nend\t1\t1\t0\n"),
        "a shelf of one byte is readable"
    );
}

#[test]
fn lines_are_branched(rt: HostRuntime) {
    assert!(rt;
        reports(
            b"N\tA\nB\tA\tA\nB\tA\tB\nU\nB\tC\tD\nB\ta\tD\nB\tA\tb\nB\tA\tB\nU\nD\tA\nD\tB\nU\n",
            b"1\tok\n2\tno\t13\n3\tok\n4\t0\t8\t2\n5\tno\t14\n6\tno\t12\n7\tno\t12\n8\tno\t13\n9\t0\t8\t2\n10\tok\n11\tok\n12\t0\t8\t0\nend\t12\t5\t0\n",
        ),
        "the old line is back before the new one is stowed"
    );
    assert!(rt;
        reports_amply(
            b"N\tA\nS\tA\t1\nR\tX\t1\t5\nE\nU\nB\tA\tB\nD\tA\nU\nD\tB\nU\n",
            b"1\tok\n2\tok\n3\tok\n4\tok\n5\t3\t1021\t1\n6\tok\n7\tok\n8\t3\t1021\t1\n9\tok\n10\t0\t1024\t0\nend\t10\t0\t0\n",
        ),
        "one stage, one name and one reading have 3 nodes, shared by a branch"
    );
}

#[test]
fn sittings_are_committed_and_abandoned(rt: HostRuntime) {
    assert!(rt;
        reports_amply(
            b"N\tA\nS\tA\t100\nR\tSG-7\t40\t250\nR\tSG-7\t60\t-30\nE\nS\tA\t200\nC\tSG-7\t40\t245\nW\tSG-7\t60\nE\nS\tA\t200\nS\tA\t199\nD\tA\n",
            b"1\tok\n2\tok\n3\tok\n4\tok\n5\tok\n6\tok\n7\tok\n8\tok\n9\tok\n10\tno\t4\n11\tno\t4\n12\tok\nend\t12\t2\t0\n",
        ),
        "a line that may not sit is back on its shelf"
    );
    assert!(rt;
        reports_amply(
            b"N\tA\nS\tA\t5\nR\tX\t1\t5\nX\nU\nS\tA\t5\nE\nU\nS\tA\t6\nR\tX\t1\t5\n",
            b"1\tok\n2\tok\n3\tok\n4\tok\n5\t0\t1024\t1\n6\tok\n7\tok\n8\t1\t1023\t1\n9\tok\n10\tok\nend\t10\t0\t0\n",
        ),
        "abandoned, committed without an entry, and left open at the end"
    );
    assert!(rt;
        reports(
            b"N\tA\nS\tA\t5\nR\tX\t1\t5\nE\nU\nX\nU\n",
            b"1\tok\n2\tok\n3\tno\t11\n4\tno\t11\n5\tno\t19\n6\tok\n7\t0\t8\t1\nend\t7\t3\t0\n",
        ),
        "a refused commit leaves the sitting open"
    );
    assert!(rt;
        reports(
            b"S\tA\t1\nS\ta\t1\nN\tA\nS\tA\t4294967295\n",
            b"1\tno\t14\n2\tno\t12\n3\tok\n4\tok\nend\t4\t2\t0\n",
        )
    );
}

#[test]
fn commands_have_their_place(rt: HostRuntime) {
    assert!(rt;
        reports(
            b"N\tA\nE\nX\nR\tX\t1\t5\nC\tX\t1\t5\nW\tX\t1\nE\tA\nR\tX\t1\n",
            b"1\tok\n2\tno\t19\n3\tno\t19\n4\tno\t19\n5\tno\t19\n6\tno\t19\n7\tno\t18\n8\tno\t18\nend\t8\t7\t0\n",
        ),
        "outside a sitting"
    );
    assert!(rt;
        reports(
            b"N\tA\nS\tA\t1\nN\tB\nB\tA\tB\nS\tA\t2\nD\tA\nU\nN\nS\tA\nX\nU\n",
            b"1\tok\n2\tok\n3\tno\t19\n4\tno\t19\n5\tno\t19\n6\tno\t19\n7\tno\t19\n8\tno\t18\n9\tno\t18\n10\tok\n11\t0\t8\t1\nend\t11\t7\t0\n",
        ),
        "inside a sitting"
    );
}

#[test]
fn entries_meet_their_conditions(rt: HostRuntime) {
    assert!(rt;
        reports_amply(
            b"N\tA\nS\tA\t100\nR\tA\t100\t1\nR\tA\t101\t1\nR\tA\t100\t2\nC\tA\t99\t1\nW\tA\t99\nC\tB\t100\t1\nC\tA\t100\t3\nW\tA\t100\nW\tA\t100\nR\tA\t1\t1000000000000\nR\tA\t2\t1000000000001\nR\tA\t3\t-1000000000001\nE\n",
            b"1\tok\n2\tok\n3\tok\n4\tno\t7\n5\tno\t9\n6\tno\t10\n7\tno\t10\n8\tno\t10\n9\tok\n10\tok\n11\tno\t10\n12\tok\n13\tno\t6\n14\tno\t6\n15\tok\nend\t15\t8\t0\n",
        ),
        "instants, readings that are there, and the range"
    );
    assert!(rt;
        reports_amply(
            b"N\tA\nS\tA\t1\nR\tA\t1\t1\nR\t0123456789ABCDEF\t1\t1\nR\t-\t1\t1\nR\t\t1\t1\nR\t0123456789ABCDEFG\t1\t1\nR\tSg-7\t1\t1\nC\tsg\t1\t1\nW\t\t1\nR\tsg\t2\t1000000000001\n",
            b"1\tok\n2\tok\n3\tok\n4\tok\n5\tok\n6\tno\t5\n7\tno\t5\n8\tno\t5\n9\tno\t5\n10\tno\t5\n11\tno\t5\nend\t11\t6\t0\n",
        ),
        "names"
    );
}

#[test]
fn an_entry_and_a_commit_need_256_free_nodes(rt: HostRuntime) {
    let script = b"N\tA\nS\tA\t5\nR\tX\t1\t5\nE\n";
    assert!(rt;
        reports_over(
            &mut [Node::default(); 258],
            script,
            b"1\tok\n2\tok\n3\tok\n4\tok\nend\t4\t0\t0\n",
        ),
        "the entry leaves 256"
    );
    assert!(rt;
        reports_over(
            &mut [Node::default(); 256],
            script,
            b"1\tok\n2\tok\n3\tok\n4\tno\t11\nend\t4\t1\t0\n",
        ),
        "the entry leaves fewer"
    );
    assert!(rt;
        reports_over(
            &mut [Node::default(); 255],
            script,
            b"1\tok\n2\tok\n3\tno\t11\n4\tno\t11\nend\t4\t2\t0\n",
        ),
        "too few from the start"
    );
}

#[test]
fn questions_are_answered_as_of_an_instant(rt: HostRuntime) {
    assert!(rt;
        reports_amply(
            b"N\tA\nS\tA\t5\nR\tX\t2\t7\nR\tX\t4\t-9\nQ\tA\t5\tX\t5\nE\nB\tA\tB\nS\tB\t6\nW\tX\t4\nE\nQ\tA\t6\tX\t9\nQ\tB\t6\tX\t9\nQ\tB\t5\tX\t9\n",
            b"1\tok\n2\tok\n3\tok\n4\tok\n5\tno\t19\n6\tok\n7\tok\n8\tok\n9\tok\n10\tok\n11\t4\t-9\n12\t2\t7\n13\t4\t-9\nend\t13\t1\t0\n",
        ),
        "what happens on a branch does not show on the line it came from"
    );
    assert!(rt;
        reports_amply(
            b"N\tA\nS\tA\t5\nR\tX\t2\t7\nR\tX\t4\t-9\nE\nT\tA\t5\tX\t2\t4\nT\tA\t5\tX\t3\t3\nT\tA\t5\tX\t4\t3\nT\tA\t4\tX\t0\t9\nT\tA\t5\tY\t0\t9\nQ\tA\t5\tX\t1\nQ\tA\t5\tx\t1\nQ\tB\t5\tX\t1\nQ\ta\t5\tX\t1\nQ\tA\t5\tX\n",
            b"1\tok\n2\tok\n3\tok\n4\tok\n5\tok\n6\t2\t-2\n7\t0\t0\n8\tno\t15\n9\t0\t0\n10\t0\t0\n11\tnone\n12\tno\t5\n13\tno\t14\n14\tno\t12\n15\tno\t18\nend\t15\t5\t0\n",
        ),
        "totals with both ends, and what a question is refused for"
    );
}

#[test]
fn script_length_has_a_limit(rt: HostRuntime) {
    let script = [10; 32769];
    let mut out = [7; 32];
    assert_eq!(rt; outcome(&script[0..32768], &mut out), Ok(14));
    let mut out = [7; 32];
    assert_eq!(rt; outcome(&script, &mut out), Err((0, 17)));
    assert_eq!(rt; out, [7; 32], "nothing is written");
}

#[test]
fn refused_runs_are_printed(rt: HostRuntime) -> Result<(), Fail> {
    let why = Refusal::ScriptTooLong;
    let long = Stopped { length: 0, why }.to_string(rt.alloc())?;
    assert_eq!(rt;
        long.as_str(),
        "refused (17): the script has more than 32,768 bytes"
    );
    let why = Refusal::ReportFull;
    let full = Stopped { length: 5, why }.to_string(rt.alloc())?;
    assert_eq!(rt; full.as_str(), "refused (20): the report does not fit");
    Ok(())
}

#[test]
fn full_report_keeps_its_whole_lines(rt: HostRuntime) {
    assert_eq!(rt;
        outcome(b"N\tA\n", &mut [0; 15]),
        Ok(15),
        "the last byte is used"
    );
    assert_eq!(rt;
        outcome(b"N\tA\n", &mut [0; 14]),
        Err((5, 20)),
        "one byte over"
    );
    assert_eq!(rt; outcome(b"N\tA\n", &mut [0; 5]), Err((5, 20)));
    assert_eq!(rt; outcome(b"N\tA\n", &mut [0; 4]), Err((0, 20)));
    assert_eq!(rt; outcome(b"", &mut []), Err((0, 20)));
}

#[test]
fn numbers_are_read(rt: HostRuntime) {
    assert_eq!(rt; instant(b"0"), Some(0));
    assert_eq!(rt; instant(b"4294967295"), Some(4294967295));
    assert_eq!(rt; instant(b"4294967296"), None);
    assert_eq!(rt; reading(b"-1"), Some(-1));
    assert_eq!(rt; reading(b"999999999999999999"), Some(999999999999999999));
    assert_eq!(rt; reading(b"-999999999999999999"), Some(-999999999999999999));
    let unreadable: [&[u8]; 11] = [
        b"",
        b"00",
        b"07",
        b"-0",
        b"-07",
        b"-",
        b"--1",
        b"+1",
        b" 1",
        b"1x",
        b"1000000000000000000",
    ];
    for text in unreadable {
        assert_eq!(rt; reading(text), None);
        assert_eq!(rt; instant(text), None);
    }
    assert_eq!(rt; instant(b"-1"), None);
}
