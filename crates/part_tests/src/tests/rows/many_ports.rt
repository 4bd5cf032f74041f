//! A run on as many ports as there may be: what comes in at one of them for everybody leaves at all others.
use crate::tests::rows::rows::Row;
use crate::tests::rows::run::WHOLE;
use std::alloc::{AllocError, Global};
use std::test::Fail;
use test_inputs::{Captures, octets_of};

/// How many ports the run has.
const PORTS: u8 = 255;

/// An endpoint, in front of its ports.
const FRONT: &str = r#"version = 3
[limits]
ports = 255
[underlay]
mac = "02:00:00:00:aa:01"
next_hop = "02:00:00:00:aa:fe"
ip4 = "192.0.2.1"
"#;

/// The tunnel of its segment.
const TUNNEL: &str = r#"[[segment.tunnel]]
kind = "vxlan"
vni = 5000
flood = ["192.0.2.2"]
"#;

/// Puts the numbers of the ports from this one on behind a text, each between two words.
fn put_ports(text: &mut String, first: u8, front: &str, back: &str) -> Result<(), AllocError> {
    let alloc = *text.allocator();
    for port in first..=PORTS {
        let word = format!(in alloc; "{front}{port}{back}")?;
        text.push_str(word.as_str())?;
    }
    Ok(())
}

/// The settings: a segment of which all ports are members, and which floods to a remote.
fn settings(alloc: Global) -> Result<String, AllocError> {
    let mut text = String::from_str(alloc, FRONT)?;
    for _port in 0..PORTS {
        text.push_str("[[port]]\npvid = 10\n")?;
    }
    text.push_str("[[segment]]\nvid = 10\nuntagged = [")?;
    put_ports(&mut text, 1, "", ", ")?;
    text.push_str("]\n")?;
    text.push_str(TUNNEL)?;
    Ok(text)
}

/// One frame for everybody, at port 1.
fn row(alloc: Global) -> Result<Row, Fail> {
    let text = settings(alloc)?;
    let mut row = Row::new(alloc, text.as_str(), &["1s p1 60 ALL M1 0806"])?;
    for _port in 3..PORTS {
        row.captures.ports.push(octets_of(alloc, "PCAP")?)?;
    }
    Ok(row)
}

/// Its decision line: 60 octets at each other port, and 50 more over the underlay (RFC 7348, 5).
fn line(alloc: Global) -> Result<String, Fail> {
    let mut text = String::from_str(alloc, "1 1000000000 p1 1 10")?;
    put_ports(&mut text, 2, " p", "=60")?;
    text.push_str(" 192.0.2.2=110\n")?;
    Ok(text)
}

/// The capture of a port at which the frame leaves.
fn capture(alloc: Global) -> Result<Vec<u8>, Fail> {
    let mut captures = Captures::empty(alloc)?;
    captures.put(alloc, "1s p3 60 ALL M1 0806")?;
    let Some(capture) = captures.ports.pop() else {
        return Err(Fail::new("a capture"));
    };
    Ok(capture)
}

/// Whether these are as many captures as there are ports, and all but the first hold just this.
fn all_but_the_first_hold(captures: &[Vec<u8>], expected: &[u8]) -> bool {
    for (index, capture) in captures.iter().enumerate() {
        if (capture.as_slice() == expected) != (index > 0) {
            return false;
        }
    }
    captures.len() == usize::from(PORTS)
}

#[test]
fn a_frame_for_everybody_leaves_at_254_ports(rt: HostRuntime) -> Result<(), Fail> {
    let row = row(rt.alloc())?;
    let (written, end) = WHOLE.run(rt.alloc(), &row)?;
    assert!(rt; end.is_ok());
    let line = line(rt.alloc())?;
    assert!(rt; written.decisions.as_slice() == line.as_bytes());
    let expected = capture(rt.alloc())?;
    assert!(rt; all_but_the_first_hold(written.ports.as_slice(), expected.as_slice()));
    Ok(())
}
