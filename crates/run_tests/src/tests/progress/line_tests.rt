//! The text of a line, when one is due, and its numbers.
use run_progress::{Pace, Shown, rate_of, share_of};
use std::test::Fail;

/// A line with this share.
fn shown(share: Option<u8>) -> Shown {
    Shown {
        share,
        octets: 123_456_789,
        events: 1_234_567,
        a_second: 812_345,
        moment: 1_700_000_000_123_456_789,
    }
}

/// A line whose numbers are as great as may be.
fn greatest() -> Shown {
    Shown {
        share: None,
        octets: u64::MAX,
        events: u64::MAX,
        a_second: u64::MAX,
        moment: u64::MAX,
    }
}

#[test]
fn lines_have_a_share_or_octets(rt: HostRuntime) -> Result<(), Fail> {
    let early = Shown {
        moment: 5,
        ..shown(Some(0))
    };
    let rows = [
        (
            shown(Some(37)),
            " 37 %, 1234567 events, 812345 a second, at 1700000000.123456789 s",
        ),
        (
            shown(None),
            " 123456789 octets, 1234567 events, 812345 a second, at 1700000000.123456789 s",
        ),
        (
            early,
            " 0 %, 1234567 events, 812345 a second, at 0.000000005 s",
        ),
        (
            greatest(),
            " 18446744073709551615 octets, 18446744073709551615 events, 18446744073709551615 a second, \
            at 18446744073.709551615 s",
        ),
    ];
    for (line, text) in rows {
        let printed = format!(in rt.alloc(); "{line}")?;
        assert_eq!(rt; printed.as_str(), text);
    }
    Ok(())
}

#[test]
fn lines_are_due_behind_a_second_and_then_each_200_milliseconds(rt: HostRuntime) {
    let looks = [
        (0, false),
        (999_999_999, false),
        (1_000_000_000, true),
        (1_000_000_000, false),
        (1_199_999_999, false),
        (1_200_000_000, true),
        (900_000_000, false),
        (1_500_000_000, true),
        (1_600_000_000, false),
        (u64::MAX, true),
        (u64::MAX, false),
    ];
    let mut pace = Pace::new();
    for (nanoseconds, is_due) in looks {
        assert_eq!(rt; pace.is_due(nanoseconds), is_due, "at {nanoseconds}");
    }
    let mut late = Pace::new();
    assert!(rt; late.is_due(u64::MAX));
}

#[test]
fn rates_are_by_the_second(rt: HostRuntime) {
    let rows = [
        (0, 0, 0),
        (5, 0, 0),
        (0, 1, 0),
        (4_096, 999_999_999, 4_096),
        (4_096, 1_000_000_000, 4_096),
        (1, 1_000_000_001, 0),
        (16_384, 1_200_000_000, 13_653),
        (18_446_744_073, 1, 18_446_744_073_000_000_000),
        (18_446_744_074, 1, u64::MAX),
        (u64::MAX, 1_000_000_000, u64::MAX),
        (u64::MAX, u64::MAX, 1_000_000_000),
        (u64::MAX, 1, u64::MAX),
        (1, u64::MAX, 0),
    ];
    for (events, nanoseconds, rate) in rows {
        assert_eq!(rt;
            rate_of(events, nanoseconds),
            rate,
            "{events} in {nanoseconds}"
        );
    }
}

#[test]
fn shares_are_below_100(rt: HostRuntime) {
    let rows = [
        (0, 0, 0),
        (7, 0, 0),
        (0, 7, 0),
        (369, 1_000, 36),
        (370, 1_000, 37),
        (999, 1_000, 99),
        (1_000, 1_000, 99),
        (u64::MAX, 1, 99),
        (u64::MAX, u64::MAX, 99),
        (1, u64::MAX, 0),
    ];
    for (octets, total, share) in rows {
        assert_eq!(rt; share_of(octets, total), share, "{octets} of {total}");
    }
}
