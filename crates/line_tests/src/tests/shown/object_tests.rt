//! Lines, and the object that each is told as.
use super::forms::FORMS;
use json_lines::{objects_of, put_object};
use std::test::Fail;

/// A line and its object.
static ROWS: [(&str, &str); 21] = [
    (
        "12 1700000000000000000 p1 3 10 p2=64 p3=64 192.0.2.2=114",
        concat!(
            r#"{"event":12,"moment":"1700000000000000000","record":3,"segment":10,"sent":["#,
            r#"{"octets":64,"place":"p2"},{"octets":64,"place":"p3"},{"octets":114,"place":"192.0.2.2"}],"source":"p1"}"#
        ),
    ),
    (
        "14 5 p1 4 10 p2=64 vxlan:192.0.2.2!TooBig",
        concat!(
            r#"{"event":14,"moment":"5","record":4,"segment":10,"sent":["#,
            r#"{"octets":64,"place":"p2"},{"fault":"TooBig","place":"vxlan:192.0.2.2"}],"source":"p1"}"#
        ),
    ),
    (
        "15 5 p1 4 10 p2!A=1",
        r#"{"event":15,"moment":"5","record":4,"segment":10,"sent":[{"fault":"A=1","place":"p2"}],"source":"p1"}"#,
    ),
    (
        "13 1700000000000000000 u 4 - drop 32 NoSegment",
        r#"{"event":13,"moment":"1700000000000000000","reason":"NoSegment","record":4,"segment":null,"source":"u","test":32}"#,
    ),
    (
        "18446744073709551615 7 c 1 30 done",
        r#"{"answer":"done","change":1,"event":18446744073709551615,"moment":"7","segment":30}"#,
    ),
    (
        "0 7 c 0 - done",
        r#"{"answer":"done","change":0,"event":0,"moment":"7","segment":null}"#,
    ),
    (
        "18446744073709551616 7 c 1 30 done",
        r#"{"text":"18446744073709551616 7 c 1 30 done"}"#,
    ),
    ("07 7 c 1 30 done", r#"{"text":"07 7 c 1 30 done"}"#),
    ("7 7 c 1 x done", r#"{"text":"7 7 c 1 x done"}"#),
    ("7 7 c 1 30 done ", r#"{"text":"7 7 c 1 30 done "}"#),
    ("7 7 c 1 30", r#"{"text":"7 7 c 1 30"}"#),
    ("7 7 p1 1 30 p2=064", r#"{"text":"7 7 p1 1 30 p2=064"}"#),
    ("7 7 p1 1 30 p2=64 ", r#"{"text":"7 7 p1 1 30 p2=64 "}"#),
    ("7 7 p1 1 30 p2", r#"{"text":"7 7 p1 1 30 p2"}"#),
    (
        "remark two  spaces and a \"quote\" \\ or \u{1}\u{1f}\t\r\u{8}\u{c}\u{7f}\u{e9}",
        "{\"kind\":\"remark\",\"rest\":\"two  spaces and a \\\"quote\\\" \\\\ or \\u0001\\u001f\\t\\r\\b\\f\u{7f}\u{e9}\"}",
    ),
    ("remark ", r#"{"kind":"remark","rest":""}"#),
    ("remark", r#"{"text":"remark"}"#),
    ("bare", "{}"),
    ("bare ", r#"{"text":"bare "}"#),
    ("", r#"{"text":""}"#),
    ("  ", r#"{"text":"  "}"#),
];

#[test]
fn tells_a_line_by_the_first_form_that_it_is_of(rt: HostRuntime) -> Result<(), Fail> {
    for (line, wanted) in &ROWS {
        let mut out = Vec::new(rt.alloc());
        out.push(b'>')?;
        put_object(&FORMS, line.as_bytes(), &mut out)?;
        let text = format!(in rt.alloc(); ">{wanted}\n")?;
        assert!(rt; out.as_slice() == text.as_bytes(), "{line}");
    }
    Ok(())
}

#[test]
fn tells_each_line_of_a_text(rt: HostRuntime) -> Result<(), Fail> {
    let found = objects_of(rt.alloc(), &[&FORMS], b"bare\n\nremark a b\nx")?;
    let wanted = "{}\n{\"text\":\"\"}\n{\"kind\":\"remark\",\"rest\":\"a b\"}\n{\"text\":\"x\"}\n";
    assert!(rt; found.as_slice() == wanted.as_bytes(), "four lines");
    let nothing = objects_of(rt.alloc(), &[&FORMS], b"")?;
    assert!(rt; nothing.is_empty(), "no line");
    Ok(())
}
