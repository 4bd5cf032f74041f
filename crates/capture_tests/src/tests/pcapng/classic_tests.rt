//! Texts that are read, and their classic captures.
use crate::tests::pcapng::texts::{EDITED, EDITED_CLASSIC, EDITED_CUT, ORDERS, text_of};
use pcap::text::Capture;
use pcapng_input::{PcapngError, Selection, classic_of, is_pcapng};
use std::alloc::Global;
use std::test::Fail;

/// Whether this is the classic capture of a text.
pub fn is_classic_of(
    alloc: Global,
    classic: &[u8],
    selection: Selection<'_>,
    text: &[u8],
) -> Result<bool, PcapngError> {
    let capture = classic_of(alloc, selection, text)?;
    Ok(capture.as_slice() == classic)
}

/// Behind the first packet of the text begins the second, which is cut.
#[test]
fn cuts_where_the_text_is_cut(rt: HostRuntime) -> Result<(), Fail> {
    let whole = text_of(rt.alloc(), EDITED)?;
    let expected = text_of(rt.alloc(), EDITED_CUT)?;
    for size in [177, whole.len().saturating_sub(1)] {
        let text = whole.get(..size).ok_or("a longer text")?;
        assert!(rt;
            is_classic_of(rt.alloc(), expected.as_slice(), Selection::All, text)?,
            "{size} octets"
        );
    }
    Ok(())
}

#[test]
fn leaves_a_capture_that_is_cut(rt: HostRuntime) -> Result<(), Fail> {
    let text = text_of(rt.alloc(), EDITED_CUT)?;
    let mut read = Capture::open(text.as_slice())?;
    assert!(rt; matches!(read.next(), Some(Ok(_))));
    assert!(rt; read.next().is_none());
    assert!(rt; read.is_cut());
    Ok(())
}

#[test]
fn tells_the_formats_apart(rt: HostRuntime) -> Result<(), Fail> {
    for (text, expected, name) in [
        (ORDERS, true, "big-endian"),
        (EDITED, true, "little-endian"),
        (EDITED_CLASSIC, false, "classic"),
        ("0A0D0D", false, "three octets"),
        ("0A0D0D0A", true, "four octets"),
    ] {
        let text = text_of(rt.alloc(), text)?;
        assert_eq!(rt; is_pcapng(text.as_slice()), expected, "{name}");
    }
    Ok(())
}
