//! Lines, and what is read from each.
use part_lines::{LineFacts, Places, read_line};
use std::alloc::Global;
use std::test::Fail;
use test_inputs::three_cells;

/// Lines: what each is, the line without its end, and the number of its event with the places where that was sent, or
/// `cut`, or a fault.
fn rows<'a>() -> &'a str {
    "\
two ports and a remote | 1 1000000000 p1 1 10 p2=60 p3=64 192.0.2.2=110 | 1 p2 p3 u
one port | 3 3000000000 p2 1 10 p1=60 | 3 p1
the last port | 9 3000000000 u 1 10 p255=60 | 9 p255
a remote of a kind | 1 1000000000 p1 1 10 p2=60 vxlan:192.0.2.2=110 geneve:192.0.2.2=110 | 1 p2 u u
a remote over IPv6 | 4 1000000000 p1 1 10 2001:0db8:0000:0000:0000:0000:0000:0002=134 | 4 u
a place where nothing left, behind one where it did | 8 8000000000 p1 3 10 p2=60 192.0.2.2!TooBig | 8 p2
a place where nothing left, before one where it did | 8 8000000000 p1 3 10 p2!InnerTagOut p3=64 | 8 p3
a drop | 9 9000000000 u 2 - drop 12 NotIp | 9
a change that was made | 7 7000000000 c 1 - done | 7
a change that was refused | 13 7000000000 c 7 30 refused 12 PoolFull | 13
the largest number | 18446744073709551615 0 c 1 - done | 18446744073709551615
a cut capture of a port | cut p2 41 | cut
a cut capture of the underlay | cut u 1 | cut
one number more | 18446744073709551616 0 c 1 - done | Number
a leading zero | 07 7000000000 c 1 - done | Number
a sign | +7 7000000000 c 1 - done | Number
no number | p1 7000000000 c 1 - done | Number
nothing |  | Number
a word that begins as a cut | cuts p2 41 | Number
no result | 7 7000000000 c 1 - | Fields
a port without a number | 3 3000000000 p2 1 10 p1=60 p=60 | Place
a port with a leading zero | 3 3000000000 p2 1 10 p01=60 | Place
a port above an octet | 3 3000000000 p2 1 10 p256=60 | Place
no place | 3 3000000000 p2 1 10 =60 | Place
"
}

/// The number of an event and the places where it was sent.
fn event_text(alloc: Global, number: u64, mut places: Places<'_>) -> Result<String, Fail> {
    let mut text = format!(in alloc; "{number}")?;
    for _ in 0..8 {
        let Some(tap) = places.next_place() else {
            return Ok(text);
        };
        let word = format!(in alloc; " {tap}")?;
        text.push_str(word.as_str())?;
    }
    Ok(text)
}

/// What is read from a line.
fn told(alloc: Global, line: &[u8]) -> Result<String, Fail> {
    match read_line(line) {
        Ok(LineFacts::Event(number, places)) => event_text(alloc, number, places),
        Ok(LineFacts::Cut) => Ok(String::from_str(alloc, "cut")?),
        Err(fault) => Ok(format!(in alloc; "{fault}")?),
    }
}

#[test]
fn reads_a_line_as_it_is_written(rt: HostRuntime) -> Result<(), Fail> {
    for row in rows().lines() {
        let (name, line, wanted) = three_cells(row)?;
        let text = format!(in rt.alloc(); "{line}\n")?;
        let found = told(rt.alloc(), text.as_bytes())?;
        assert_eq!(rt; found.as_str(), wanted, "{name}");
    }
    Ok(())
}

#[test]
fn refuses_a_line_without_its_end(rt: HostRuntime) -> Result<(), Fail> {
    let found = told(rt.alloc(), b"7 7000000000 c 1 - done")?;
    assert_eq!(rt; found.as_str(), "NoEnd");
    let nothing = told(rt.alloc(), b"")?;
    assert_eq!(rt; nothing.as_str(), "NoEnd");
    Ok(())
}

#[test]
fn prints_the_words_of_a_result_that_were_not_read(rt: HostRuntime) -> Result<(), Fail> {
    let line = b"1 1000000000 p1 1 10 p2=60 u!TooBig p3=64\n";
    let Ok(LineFacts::Event(_, mut places)) = read_line(line) else {
        return Err(Fail::from("an event"));
    };
    let whole = format!(in rt.alloc(); "{places:?}")?;
    assert_eq!(rt;
        whole.as_str(),
        "Places { rest: [112, 50, 61, 54, 48, 32, 117, 33, 84, 111, 111, 66, 105, 103, 32, 112, 51, 61, 54, 52] }"
    );
    assert!(rt; places.next_place().is_some());
    let behind = format!(in rt.alloc(); "{places:?}")?;
    assert_eq!(rt;
        behind.as_str(),
        "Places { rest: [117, 33, 84, 111, 111, 66, 105, 103, 32, 112, 51, 61, 54, 52] }"
    );
    assert!(rt; places.next_place().is_some());
    assert!(rt; places.next_place().is_none());
    let none = format!(in rt.alloc(); "{places:?}")?;
    assert_eq!(rt; none.as_str(), "Places { rest: [] }");
    Ok(())
}
