//! The list of known options.
ghost use Rattle.std.specs.Prelude.{◌≡◌, Option, List, ℕ};
ghost use Rattle.toml.specs.View.{view};
ghost use Rattle.overlay_config.specs.Underlay.{known_option, put_known};

use config_text::ListColumn;
use toml::Value;
use wire::geneve::Known;

/// An option: its class, 0 to 65535, and its type, 0 to 255.
#[tactic(auto, using(crate::proofs::Pairs::pair_in_other))]
fn known_option(value: &Value) -> Option<(u16, u8)>
    ensures { result ≡ known_option (view value.now) }
{
    match value.as_array()?.as_slice() {
        [class, kind] => {
            let class = class.as_integer()?;
            let kind = kind.as_integer()?;
            if 0 <= class && class <= 65535 && 0 <= kind && kind <= 255 {
                Some((class as u16, kind as u8))
            } else {
                None
            }
        }
        _ => None,
    }
}

/// Options without repeats, at most 16.
#[derive(Clone, Copy)]
pub(crate) struct KnownOptions;

impl ListColumn for KnownOptions {
    type List = Known;

    ghost puts = { λ _. put_known };

    fn put(&self, list: Known, value: &Value) -> Option<Known> {
        let (class, kind) = known_option(value)?;
        if list.holds(class, kind) {
            return None;
        }
        let mut list = list;
        list.try_push(class, kind).ok()?;
        Some(list)
    }
}
