//! The laws of the definitions of settings and changes, as contracts of functions that do nothing.
ghost use Rattle.std.specs.Prelude.{◌≡◌, ℕ, pos, IsFalse, List, None, Ok, codes};
ghost use Rattle.overlay.specs.Rules.{MeetsRules};
ghost use Rattle.overlay.specs.Settings.{Settings};
ghost use Rattle.overlay.specs.declared.settings.change.TimedChange.{TimedChange};
ghost use Rattle.toml.specs.Data.{Members, get_member, integer};
ghost use Rattle.config_text.specs.Table.{top};
ghost use Rattle.overlay_config.specs.Before as before;
ghost use Rattle.overlay_config.specs.Change.{changes_of};
ghost use Rattle.overlay_config.specs.declared.version.Version.TheVariants.{Two};
ghost use Rattle.overlay_config.specs.Migrate.{migrated, with_value};
ghost use Rattle.overlay_config.specs.Settings.{is_third, settings_in, settings_of, version_of};

/// The settings that a text means keep to every rule.
pub fn meanings()
    ensures { (text : List ℕ) (s : Settings) → settings_in text ≡ Ok s → MeetsRules s }
{}

/// Settings that aren't of version 3 mean what they meant before limits could be asked for, each fault included, and so do
/// those without a table `limits`.
pub fn before_limits()
    ensures others { (members : Members) → IsFalse (is_third (top members)) → settings_of members ≡ before.settings_of members }
    ensures unasked { (members : Members) → get_member (codes "limits") members ≡ None → settings_of members ≡ before.settings_of members }
{}

/// Settings of version 2 mean the same with 3 in place of their version.
pub fn third_versions()
    ensures { (members : Members) (s : Settings) → version_of (top members) ≡ Ok Two → settings_of members ≡ Ok s
        → settings_of (with_value (codes "version") (integer (pos 3)) members) ≡ Ok s }
{}

/// Migrated settings mean the same, and are migrated to themselves.
pub fn migrations()
    ensures means { (members : Members) (s : Settings) → settings_of members ≡ Ok s → settings_of (migrated members) ≡ Ok s }
    ensures twice { (members : Members) → migrated (migrated members) ≡ migrated members }
{}

/// Changes that tell no version mean what they meant before they could have one, each fault included, and what they mean they
/// mean in version 2.
pub fn unversioned_changes()
    ensures before { (members : Members) → get_member (codes "version") members ≡ None → changes_of members ≡ before.changes_of members }
    ensures second { (members : Members) (changes : List TimedChange) → get_member (codes "version") members ≡ None
        → changes_of members ≡ Ok changes → changes_of (with_value (codes "version") (integer (pos 2)) members) ≡ Ok changes }
{}
