//! Names and their orders, readings and their range.

use kinds::{BackwardName, Name, Reading};
use std::cmp::Ordering;

/// How two names compare, by bytes and backward; none where one of them is no name.
fn compared(a: &[u8], b: &[u8]) -> Option<(Ordering, Ordering)> {
    let a = Name::try_from(a).ok()?;
    let b = Name::try_from(b).ok()?;
    let backward = BackwardName { name: a }.cmp(&BackwardName { name: b });
    Some((a.cmp(&b), backward))
}

#[test]
fn names_keep_their_rule(rt: HostRuntime) {
    let names: [&[u8]; 4] = [b"A", b"SG-7", b"-", b"0123456789ABCDEF"];
    for name in names {
        assert!(rt; Name::try_from(name).is_ok());
    }
    let others: [&[u8]; 6] = [
        b"",
        b"0123456789ABCDEFG",
        b"sg-7",
        b"SG 7",
        b"SG_7",
        b"SG-7\0",
    ];
    for name in others {
        assert!(rt; Name::try_from(name).is_err());
    }
    assert!(rt; Reading::try_from(1000000000000).is_ok());
    assert!(rt; Reading::try_from(1000000000001).is_err());
    assert!(rt; Reading::try_from(-1000000000001).is_err());
}

#[test]
fn names_go_by_bytes_and_backward(rt: HostRuntime) {
    assert_eq!(rt;
        compared(b"SG-10", b"SG-9"),
        Some((Ordering::Less, Ordering::Greater))
    );
    assert_eq!(rt;
        compared(b"SG", b"SG-9"),
        Some((Ordering::Less, Ordering::Greater))
    );
    assert_eq!(rt;
        compared(b"SG-7", b"SG-7"),
        Some((Ordering::Equal, Ordering::Equal))
    );
    assert_eq!(rt;
        compared(b"ABCDEFGHI", b"ABCDEFGH"),
        Some((Ordering::Greater, Ordering::Less))
    );
}
