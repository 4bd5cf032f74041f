//! The settings of an endpoint.
ghost use Rattle.std.specs.Prelude.{◌≡◌};

use crate::ports::PortRule;
use crate::settings::SegmentRule;
use crate::underlay::Underlay;
use std::marker::Model;

/// What settings say, whether or not they keep to the rules. Contracts see a record of the underlay, the ports, the
/// segments and the pool.
#[derive(Debug, Drop)]
pub struct Parts {
    pub underlay: Underlay,
    /// The local ports, 1 to as many as the limits in force say: the k-th is port k.
    pub ports: Vec<PortRule>,
    pub segments: Vec<SegmentRule>,
    /// The most entries that all tables together may be given, 1 to what the limits in force say.
    pub pool: u32,
}

impl Model for Parts {
    ghost use Rattle.overlay.specs.Settings.{Settings};
    ghost use Rattle.overlay.specs.SettingsCode.{settings_code};

    ghost Value = { Settings };

    ghost coded = { settings_code };

    ghost view = { λ p. record { underlay = p.underlay; ports = p.ports.items; segments = p.segments.items; pool = p.pool } };
}

/// The settings of an endpoint, which keep to every rule for them. Contracts see the same record.
#[derive(Debug, Drop)]
pub struct Settings {
    parts: Parts,
}

impl Model for Settings {
    ghost use Rattle.overlay.specs.Settings.{Settings};
    ghost use Rattle.overlay.specs.Rules.{MeetsRules};
    ghost use Rattle.overlay.specs.SettingsCode.{settings_code};

    ghost Value = { Settings };

    ghost coded = { settings_code };

    ghost view = { λ s. s.parts };

    ghost invariant = { λ s. MeetsRules s.parts };
}

impl Settings {
    ghost use Rattle.std.specs.Prelude.{◌≡◌};
    ghost use Rattle.overlay.specs.Rules.{MeetsRules};

    /// Settings of these parts, which keep to the rules.
    pub fn new(parts: Parts) -> Settings
        requires { MeetsRules parts }
        ensures { result ≡ parts }
    {
        Settings { parts }
    }

    /// The local ports: the k-th is port k.
    pub fn ports(&self) -> &[PortRule]
        ensures value { result.now ≡ self.now.ports }
        ensures rules { MeetsRules self.now }
    {
        self.parts.ports.as_slice()
    }

    /// The segments.
    pub fn segments(&self) -> &[SegmentRule]
        ensures value { result.now ≡ self.now.segments }
        ensures rules { MeetsRules self.now }
    {
        self.parts.segments.as_slice()
    }

    /// The most entries that all tables together may be given, 1 to what the limits in force say: what the limits of the
    /// segments sum to at most, also when segments come, go and get another limit.
    pub fn pool(&self) -> u32
        ensures value { result ≡ self.now.pool }
        ensures rules { MeetsRules self.now }
    {
        self.parts.pool
    }

    /// What they say.
    pub fn into_parts(self) -> Parts
        ensures value { result ≡ self }
        ensures rules { MeetsRules self }
    {
        self.parts
    }
}
