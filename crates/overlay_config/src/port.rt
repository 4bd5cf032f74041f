//! The table of a port.
ghost use Rattle.overlay_config.specs.Port.{port_of};

use config_text::{ListRow, Reader, SettingsFault, Truth, VidNumber, Words};
use overlay::ports::{Accept, PortRule};

const ACCEPTS: [(&str, Accept); 3] = [
    ("all", Accept::All),
    ("tagged", Accept::Tagged),
    ("untagged", Accept::Untagged),
];

const KEYS: [&str; 3] = ["pvid", "accept", "up"];

/// The table of a port.
#[derive(Clone, Copy)]
pub(crate) struct PortRow;

impl ListRow for PortRow {
    type Out = PortRule;

    ghost means = { λ _ _. port_of };

    #[tactic(auto, unfolding(crate::specs::Port::port_of))]
    fn read(&self, _earlier: &[PortRule], at: &Reader) -> Result<PortRule, SettingsFault> {
        at.only(&KEYS)?;
        let pvid = at.required("pvid", &VidNumber)?;
        let accept = at.defaulted("accept", &Words { words: &ACCEPTS }, Accept::All)?;
        let up = at.defaulted("up", &Truth, true)?;
        Ok(PortRule { pvid, accept, up })
    }
}
