//! Lists of values under one key.
ghost use Rattle.std.specs.Prelude.{◌≡◌, Option, List, map};
ghost use Rattle.toml.specs.Data.{Data};
ghost use Rattle.toml.specs.View.{view};
ghost use Rattle.config_text.specs.Column.{gathered};

use toml::Value;

/// What the items of a list mean, each behind those before it.
pub trait ListColumn {
    type List: Drop;

    /// The list with one more item, or nothing where the value is none or may not stand there.
    ghost puts: { Self → Self.List → Data → Option Self.List };

    fn put(&self, list: Self::List, value: &Value) -> Option<Self::List>
        ensures { result ≡ puts self.now list (view value.now) };
}

/// The list of these items, each put behind those before it; none where the column refuses one.
pub fn gather<L: ListColumn>(column: &L, empty: L::List, items: &[Value]) -> Option<L::List>
    ensures { result ≡ gathered (L.puts column.now) empty (map view items.now) }
{
    let mut list = empty;
    for value in items {
        list = column.put(list, value)?;
    }
    Some(list)
}
