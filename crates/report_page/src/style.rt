//! How the page looks.

/// The style of the page: calm, in colours of light and dark, for screens of any width and for paper.
pub(crate) const STYLE: &str = "\
    :root { color-scheme: light dark; --paper: #fff; --ink: #1c2024; --soft: #5c656e; --line: #d5dade; }\n\
    :root { --first: #154b8a; --second: #4d93d6; --third: #b4441f; }\n\
    @media (prefers-color-scheme: dark) {\n\
    :root { --paper: #16191c; --ink: #e4e7ea; --soft: #a0a9b2; --line: #3a4249; }\n\
    :root { --first: #5a9be6; --second: #c4dffa; --third: #f08a5d; }\n\
    }\n\
    * { box-sizing: border-box; }\n\
    body { margin: 0 auto; padding: 1rem; max-width: 80rem; background: var(--paper); color: var(--ink); }\n\
    body { font: 1rem/1.5 system-ui, sans-serif; }\n\
    h1 { margin: 0 0 .25rem; font-size: 1.75rem; font-weight: 600; line-height: 1.2; }\n\
    h2 { margin: 2.5rem 0 .5rem; padding-top: .5rem; border-top: 1px solid var(--line); font-size: 1.25rem; font-weight: 600; }\n\
    h3 { margin: 1.5rem 0 .25rem; font-size: 1rem; font-weight: 600; }\n\
    p { margin: .5rem 0; max-width: 45rem; }\n\
    a, summary { color: var(--first); }\n\
    summary { cursor: pointer; }\n\
    a:focus-visible, summary:focus-visible, .wide:focus-visible { outline: 3px solid var(--third); outline-offset: 2px; }\n\
    nav ul { display: flex; flex-wrap: wrap; gap: .25rem 1.25rem; margin: 1rem 0; padding: 0; list-style: none; }\n\
    dl { display: grid; grid-template-columns: repeat(auto-fit, minmax(12rem, 1fr)); gap: .75rem 1.5rem; margin: 1rem 0; }\n\
    dt { color: var(--soft); font-size: .875rem; }\n\
    dd { margin: 0; font-size: 1.25rem; font-variant-numeric: tabular-nums; overflow-wrap: anywhere; }\n\
    dd small { display: block; color: var(--soft); font-size: .8125rem; }\n\
    .wide { overflow-x: auto; }\n\
    table { border-collapse: collapse; font-size: .875rem; font-variant-numeric: tabular-nums; }\n\
    th, td { padding: .25rem .75rem .25rem 0; border-bottom: 1px solid var(--line); text-align: left; vertical-align: top; }\n\
    thead th { color: var(--soft); font-weight: 600; white-space: nowrap; }\n\
    th, td { white-space: nowrap; }\n\
    .n { text-align: right; }\n\
    .why { min-width: 20rem; white-space: normal; }\n\
    figure { margin: 1rem 0; }\n\
    ol { max-width: 45rem; padding-left: 1.5rem; }\n\
    ol li { margin: .5rem 0; }\n\
    figcaption { margin-top: .25rem; color: var(--soft); font-size: .875rem; }\n\
    svg { display: block; width: 100%; }\n\
    svg, .key::before { -webkit-print-color-adjust: exact; print-color-adjust: exact; }\n\
    .scale, .axis { max-width: none; margin: .25rem 0; color: var(--soft); font-size: .8125rem; }\n\
    .axis { display: flex; justify-content: space-between; }\n\
    .bars { height: 8rem; border-bottom: 1px solid var(--soft); }\n\
    .spark { width: 10rem; height: 1.5rem; border-bottom: 1px solid var(--line); }\n\
    polyline { fill: none; stroke: var(--first); stroke-width: 1.5; vector-effect: non-scaling-stroke; }\n\
    .a { fill: var(--first); }\n\
    .b { fill: var(--second); }\n\
    .c { fill: var(--third); }\n\
    .key { margin-right: 1rem; white-space: nowrap; }\n\
    .key::before { content: \"\"; display: inline-block; width: .75rem; height: .75rem; margin-right: .375rem; }\n\
    .key::before { border: 1px solid var(--soft); }\n\
    .key.a::before { background: var(--first); }\n\
    .key.b::before { background: var(--second); }\n\
    .key.c::before { background: var(--third); }\n\
    .matrix { max-width: 60rem; }\n\
    .matrix rect { stroke: var(--line); stroke-width: .5; }\n\
    .matrix text { fill: var(--ink); font: 5.2px system-ui, sans-serif; }\n\
    .limit { padding: 0 .375rem; border: 1px solid var(--third); border-radius: .25rem; color: var(--third); font-size: .8125rem; }\n\
    details { margin: .5rem 0; }\n\
    td details { margin: 0; font-size: .8125rem; }\n\
    td details p { max-width: 20rem; white-space: normal; }\n\
    code { font: .875em ui-monospace, monospace; overflow-wrap: anywhere; }\n\
    @media print {\n\
    body { max-width: none; padding: 0; font-size: 10pt; }\n\
    nav { display: none; }\n\
    .wide { overflow: visible; }\n\
    details::details-content { display: block; content-visibility: visible; block-size: auto; }\n\
    tr, figure { break-inside: avoid; }\n\
    }\n";
