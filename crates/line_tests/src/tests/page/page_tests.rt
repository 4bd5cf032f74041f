//! Pages of a few lines each.
use pcap::stream::StdOutput;
use report_counts::{ReportCounts, read_line};
use report_page::{RunFolder, write_page};
use std::alloc::Global;
use std::process::Abort;
use std::test::Fail;

/// The first and the last moment of all lines here: 2026-11-29 05:01:02 and 64 seconds later, less a nanosecond. A span is a second.
const FIRST: u64 = 1_795_928_462_000_000_000;

const LAST: u64 = 1_795_928_525_999_999_999;

/// Decision lines: local frames, packets, drops and changes.
fn decisions<'a>() -> &'a str {
    "\
1 1795928462000000000 p1 1 10 p2=60 192.0.2.2=110
2 1795928463000000000 p1 2 10 p2=60
3 1795928463000000001 p2 1 20 192.0.2.2!TooBig p1=60
4 1795928464000000000 u 1 - drop 12 NotIp
5 1795928465000000000 c 1 20 refused 6 TableFull
6 1795928465000000000 c 2 20 done
7 1795928525999999999 p2 2 10 drop 35 SamePlace
cut p2 2
"
}

/// The page of these lines.
fn page_of(alloc: Global, lines: &str, folder: &str, told: &str) -> Result<String, Fail> {
    let mut counts = ReportCounts::new(alloc, FIRST, LAST)?;
    for line in lines.lines() {
        let Ok(read) = read_line(line.as_bytes()) else {
            return Err(Fail::from("a decision line"));
        };
        counts.count(&read);
    }
    let mut output = StdOutput::new(Vec::new(alloc));
    let folder = RunFolder {
        name: folder,
        is_part: true,
        told: told.as_bytes(),
    };
    if write_page(&counts, folder, &mut output).is_err() {
        return Err(Fail::from("a page"));
    }
    match String::from_utf8(output.into_inner()) {
        Ok(page) => Ok(page),
        Err(_) => Err(Fail::from("UTF-8")),
    }
}

/// What stands on the page of these lines.
fn wanted<'a>() -> &'a str {
    "\
<title>What a run gave: out</title>
<div><dt>Events</dt><dd>7</dd></div>
<div><dt>First moment</dt><dd>2026-11-29 05:01:02 UTC<small>1795928462000000000 ns</small></dd></div>
<div><dt>Last moment</dt><dd>2026-11-29 05:02:05 UTC<small>1795928525999999999 ns</small></dd></div>
<div><dt>Frames and packets that left</dt><dd>4</dd></div>
<div><dt>Not sent at an outlet</dt><dd>1</dd></div>
<div><dt>Dropped</dt><dd>2<small>40.0 % of 5 that came</small></dd></div>
<div><dt>Changes done</dt><dd>1</dd></div>
<div><dt>Changes refused</dt><dd>1</dd></div>
<p>This folder is of a part of a run: its <code>shard.txt</code> tells of which segments.
<p>The capture of <code>p2</code> is cut: it ends within a record, behind 2 whole ones.</p>
<li><strong>12 NotIp: 1</strong><br>Behind at most two tags
<li><strong>35 SamePlace: 1</strong><br>The destination stands
<li><strong>39 TooBig: 1</strong><br>For one outlet
<tr><th scope=\"row\">1</th><td class=\"n\">1795928463000000000</td><td class=\"n\">2</td><td class=\"n\">0</td>\
<td class=\"n\">2</td><td class=\"n\">0</td><td class=\"n\">0</td></tr>
<tr><th scope=\"row\">p1</th><td class=\"n\">2</td><td><svg
<tr><th scope=\"row\">changes</th><td class=\"n\">2</td><td><svg
<tr><th scope=\"row\">u</th><td class=\"n\">1</td><td><svg
<tr><th scope=\"row\">p2</th><td class=\"n\">2</td><td class=\"n\">120</td><td class=\"n\">0</td><td><svg
<tr><th scope=\"row\">192.0.2.2</th><td class=\"n\">1</td><td class=\"n\">110</td><td class=\"n\">1</td><td><svg
<tr><th scope=\"row\">10</th><td class=\"n\">3</td><td class=\"n\">3</td><td class=\"n\">1</td><td><svg
<tr><th scope=\"row\">none</th><td class=\"n\">1</td><td class=\"n\">0</td><td class=\"n\">1</td><td><svg
<tr><th scope=\"row\">20</th><td class=\"n\">39</td><td>TooBig</td><td class=\"n\">1</td><td class=\"why\">
<tr><th scope=\"row\">39 TooBig</th><td class=\"n\">1</td><td><svg
<tr><th scope=\"row\">6 TableFull</th><td class=\"n\">1</td><td><span class=\"limit\">a limit</span></td></tr>
<title>p1 to p2: 2</title>
<tr><th scope=\"row\">p1</th><td>192.0.2.2</td><td class=\"n\">1</td><td class=\"n\">110</td></tr>
<td>u:1</td><td>none</td><td>12 NotIp</td><td><code>tep run .. --why u:1</code></td></tr>
<td>p2:1</td><td>20</td><td>39 TooBig</td><td><code>tep run .. --why p2:1</code></td></tr>
<td>p2:2</td><td>10</td><td>35 SamePlace</td><td><code>tep run .. --why p2:2</code></td></tr>
</html>
"
}

#[test]
fn tells_what_was_counted(rt: HostRuntime) -> Result<(), Fail> {
    let page = page_of(rt.alloc(), decisions(), "out", "")?;
    for part in wanted().lines() {
        check(&rt, page.as_str().contains(part), part);
    }
    Ok(())
}

/// Ends the test where a case doesn't hold.
fn check(rt: &impl Abort, holds: bool, case: &str) {
    assert!(rt; holds, "{case}");
}

#[test]
fn shows_no_text_of_others_as_markup(rt: HostRuntime) -> Result<(), Fail> {
    let told = "talk 10 <script> p1 > \"'& p2 1 60\nsegment 10 sent 812\n";
    let page = page_of(rt.alloc(), "", "<b>&\"'", told)?;
    let page = page.as_str();
    assert!(rt; page.contains("<title>What a run gave: &lt;b&gt;&amp;&quot;&#39;</title>"));
    assert!(rt;
        page.contains("<td>&lt;script&gt;</td><td>p1</td><td>&quot;&#39;&amp;</td><td>p2</td>")
    );
    assert!(rt; !page.contains("<script"));
    assert!(rt; !page.contains("<td>812</td>"));
    Ok(())
}

/// Talks of eleven sources of a segment, of another, and of all others.
fn talks<'a>() -> &'a str {
    "\
talk 10 02:00:00:00:00:01 p1 > 02:00:00:00:00:0c p2 9 1100 first 1000000000 last 9000000000
talk 10 02:00:00:00:00:02 p1 > 02:00:00:00:00:0c p2 8 1000 first 1000000000 last 9000000000
talk 10 02:00:00:00:00:03 p1 > 02:00:00:00:00:0c p2 8 900 first 1000000000 last 9000000000
talk 10 02:00:00:00:00:04 p1 > 02:00:00:00:00:0c p2 7 800 first 1000000000 last 9000000000
talk 10 02:00:00:00:00:05 p1 > 02:00:00:00:00:0c p2 7 700 first 1000000000 last 9000000000
talk 10 02:00:00:00:00:06 p1 > 02:00:00:00:00:0c p2 6 600 first 1000000000 last 9000000000
talk 10 02:00:00:00:00:07 p1 > 02:00:00:00:00:0c p2 5 500 first 1000000000 last 9000000000
talk 10 02:00:00:00:00:08 p1 > 02:00:00:00:00:0c p2 4 400 first 1000000000 last 9000000000
talk 10 02:00:00:00:00:09 p1 > 02:00:00:00:00:0c p2 3 300 first 1000000000 last 9000000000
talk 10 02:00:00:00:00:0a p1 > 02:00:00:00:00:0c vxlan:192.0.2.2 2 200 first 3000000000 last 4000000000
talk 10 02:00:00:00:00:0b p1 > 02:00:00:00:00:0c p2 1 100 first 5000000000 last 5000000000
talk 20 02:00:00:00:00:0b p3 > 02:00:00:00:00:0c drop 1 60 first 6000000000 last 6000000000
talk others 7 700 first 1000000000 last 2000000000
"
}

/// What stands on the page of these talks: the heads and the first, then the tenth and that of the other segment; and no move.
fn ten_of_each<'a>() -> [&'a str; 3] {
    [
        "; of each segment the first ten are shown.</p>
<div class=\"wide\" role=\"region\" aria-label=\"Talks\" tabindex=\"0\"><table>
<thead><tr><th scope=\"col\">Segment</th><th scope=\"col\">Source</th><th scope=\"col\">From</th>\
<th scope=\"col\">Destination</th><th scope=\"col\">To</th><th scope=\"col\" class=\"n\">Frames</th>\
<th scope=\"col\" class=\"n\">Octets</th><th scope=\"col\" class=\"n\">First frame, ns</th>\
<th scope=\"col\" class=\"n\">Last frame, ns</th></tr></thead>
<tbody>
<tr><td>10</td><td>02:00:00:00:00:01</td><td>p1</td><td>02:00:00:00:00:0c</td><td>p2</td><td class=\"n\">9</td>\
<td class=\"n\">1100</td><td class=\"n\">1000000000</td><td class=\"n\">9000000000</td></tr>
",
        "\
<tr><td>10</td><td>02:00:00:00:00:0a</td><td>p1</td><td>02:00:00:00:00:0c</td><td>vxlan:192.0.2.2</td><td class=\"n\">2</td>\
<td class=\"n\">200</td><td class=\"n\">3000000000</td><td class=\"n\">4000000000</td></tr>
<tr><td>20</td><td>02:00:00:00:00:0b</td><td>p3</td><td>02:00:00:00:00:0c</td><td>drop</td><td class=\"n\">1</td>\
<td class=\"n\">60</td><td class=\"n\">6000000000</td><td class=\"n\">6000000000</td></tr>
</tbody>
</table></div>
<h3>Moves</h3>
",
        "Lines: 0; the first 1,000 are shown at most.</p>
<div class=\"wide\" role=\"region\" aria-label=\"Moves\" tabindex=\"0\"><table>
",
    ]
}

#[test]
fn shows_ten_talks_of_each_segment(rt: HostRuntime) -> Result<(), Fail> {
    let page = page_of(rt.alloc(), "", "out", talks())?;
    check(&rt, page.as_str().contains("first. Lines: 12;"), "how many");
    for part in ten_of_each() {
        check(&rt, page.as_str().contains(part), part);
    }
    Ok(())
}

/// Talks of a source that moved, of one that has two destinations, and of the same in another segment.
fn talks_of_one_that_moved<'a>() -> &'a str {
    "\
talk 10 02:00:00:00:00:01 p1 > 02:00:00:00:00:03 p2 5 500 first 1000000000 last 2000000000
talk 10 02:00:00:00:00:02 p1 > 02:00:00:00:00:03 p2 4 400 first 1000000000 last 2000000000
talk 10 02:00:00:00:00:01 vxlan:192.0.2.2 > 02:00:00:00:00:03 p2 3 300 first 3000000000 last 4000000000
talk 10 02:00:00:00:00:02 p1 > 02:00:00:00:00:01 flood 2 200 first 5000000000 last 6000000000
talk 20 02:00:00:00:00:02 p3 > 02:00:00:00:00:03 drop 1 100 first 7000000000 last 7000000000
talk others 7 700 first 1000000000 last 2000000000
"
}

/// All that is told of moves.
fn moves<'a>() -> &'a str {
    "\
<h3>Moves</h3>
<p>Talks of an address that sent from more than one place in its segment. Lines: 2; the first 1,000 are shown at most.</p>
<div class=\"wide\" role=\"region\" aria-label=\"Moves\" tabindex=\"0\"><table>
<thead><tr><th scope=\"col\">Segment</th><th scope=\"col\">Source</th><th scope=\"col\">From</th>\
<th scope=\"col\">Destination</th><th scope=\"col\">To</th><th scope=\"col\" class=\"n\">Frames</th>\
<th scope=\"col\" class=\"n\">Octets</th><th scope=\"col\" class=\"n\">First frame, ns</th>\
<th scope=\"col\" class=\"n\">Last frame, ns</th></tr></thead>
<tbody>
<tr><td>10</td><td>02:00:00:00:00:01</td><td>p1</td><td>02:00:00:00:00:03</td><td>p2</td><td class=\"n\">5</td>\
<td class=\"n\">500</td><td class=\"n\">1000000000</td><td class=\"n\">2000000000</td></tr>
<tr><td>10</td><td>02:00:00:00:00:01</td><td>vxlan:192.0.2.2</td><td>02:00:00:00:00:03</td><td>p2</td><td class=\"n\">3</td>\
<td class=\"n\">300</td><td class=\"n\">3000000000</td><td class=\"n\">4000000000</td></tr>
</tbody>
</table></div>
<h3>Tables</h3>
"
}

#[test]
fn shows_who_moved(rt: HostRuntime) -> Result<(), Fail> {
    let page = page_of(rt.alloc(), "", "out", talks_of_one_that_moved())?;
    assert!(rt; page.as_str().contains(moves()));
    Ok(())
}

/// Entries of a table, one fixed and one learned, and a line that is none.
fn entries<'a>() -> &'a str {
    "\
segment 10 dropped 35 SamePlace 2
segment 10 02:00:00:00:00:01 p1 fixed
segment 10 02:00:00:00:00:02 192.0.2.2 seen 1000000000 age 3.000000000
"
}

/// All that is told of them.
fn entry_rows<'a>() -> &'a str {
    " Lines: 2; the first 1,000 are shown at most.</p>
<div class=\"wide\" role=\"region\" aria-label=\"Tables\" tabindex=\"0\"><table>
<thead><tr><th scope=\"col\">Segment</th><th scope=\"col\">Address</th><th scope=\"col\">Place</th>\
<th scope=\"col\">Kept</th><th scope=\"col\" class=\"n\">Moment, ns</th><th scope=\"col\" class=\"n\">Age, s</th></tr></thead>
<tbody>
<tr><td>10</td><td>02:00:00:00:00:01</td><td>p1</td><td>fixed</td><td class=\"n\"></td><td class=\"n\"></td></tr>
<tr><td>10</td><td>02:00:00:00:00:02</td><td>192.0.2.2</td><td>seen</td><td class=\"n\">1000000000</td>\
<td class=\"n\">3.000000000</td></tr>
</tbody>
</table></div>
</section>
"
}

#[test]
fn shows_entries_of_tables(rt: HostRuntime) -> Result<(), Fail> {
    let page = page_of(rt.alloc(), "", "out", entries())?;
    assert!(rt; page.as_str().contains(entry_rows()));
    Ok(())
}
