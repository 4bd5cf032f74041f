//! Laws over the definitions.
ghost use Rattle.report_page.specs.Escaped.{HasNoLooseAmpersand, HasNoMarkup};

/// Nothing of a text of others opens or ends markup: it has no `<`, no `>` and no quotes.
pub fn escaped_has_no_markup()
    ensures { HasNoMarkup }
{}

/// And no `&` but that of an entity: the text of an octet is an entity or has none.
pub fn escaped_has_no_loose_ampersand()
    ensures { HasNoLooseAmpersand }
{}
