//! Moments.
ghost use Rattle.std.specs.Prelude.{◌≡◌, ◌<◌, ◌/◌, ◌^◌, ◌*◌, ◌-◌, IfSome, ◌≤◌};
ghost use Rattle.pcap.specs.Record.{last_moment};
ghost use Rattle.pcapng_input.specs.Moments.{offset_moment, ticks_in_nanoseconds};

/// A second in nanoseconds.
const SECOND: u128 = 1_000_000_000;

/// The last moment that a classic capture can tell, in nanoseconds.
const LAST_MOMENT: u128 = 4_294_967_295_999_999_999;

/// A number divided by another some times over, rounded down.
#[tactic(auto, using(crate::proofs::Powers::divided_none, crate::proofs::Powers::divided_more))]
fn divided(number: u128, by: u128, times: u8) -> u128
    requires { 0 < by }
    ensures value { result ≡ number / by ^ times }
    ensures bound { result ≤ number }
{
    let mut left = number;
    for _time in 0..times {
        left /= by;
    }
    left
}

/// Ticks in nanoseconds, rounded down, by the option `if_tsresol`.
#[tactic(auto, unfolding(crate::specs::Moments::ticks_in_nanoseconds))]
pub fn ticks_in_nanoseconds(resolution: u8, ticks: u64) -> u128
    ensures value { result ≡ ticks_in_nanoseconds resolution ticks }
    ensures bound { result < 2 ^ 94 }
{
    let ticks = u128::from(ticks);
    match resolution {
        6 => ticks * 1000,
        9 => ticks,
        _ if resolution < 128 => divided(ticks * SECOND, 10, resolution),
        _ => divided(ticks * SECOND, 2, resolution - 128),
    }
}

/// Nanoseconds moved by the seconds of the option `if_tsoffset`, where a classic capture can tell them.
#[tactic(auto, unfolding(crate::specs::Moments::offset_moment))]
pub fn offset_moment(offset: u64, moment: u128) -> Option<u64>
    requires { moment < 2 ^ 94 }
    ensures value { result ≡ offset_moment offset moment }
    ensures limit { IfSome result (λ moment. moment ≤ last_moment) }
{
    let moment = if offset < 1 << 63 {
        moment + u128::from(offset) * SECOND
    } else {
        moment.checked_sub(((1 << 64) - u128::from(offset)) * SECOND)?
    };
    if moment > LAST_MOMENT {
        return None;
    }
    Some(moment as u64)
}
