//! The checks of a change, in their order.
ghost use Rattle.std.specs.Prelude.{◌≡◌, ◌≤◌, ◌+◌, ◌++◌, ◌∷◌, [], is_some, length, nat_lt, IfOk, OnOk};
ghost use Rattle.filter_db.specs.Standing.{sum_of_limits};
ghost use Rattle.overlay.specs.UnderlaySettings.{own};
ghost use Rattle.endpoint_core.specs.Change.{is_too_much};
ghost use Rattle.endpoint_core.specs.Held.{moment_of, settings_of, state_at};
ghost use Rattle.endpoint_core.specs.Settings.{kind_named, tables_asked};
ghost use Rattle.change_story.specs.Checks as specs;
ghost use Rattle.change_story.specs.Segment.{segment_in};

use crate::check::{
    Check, absent_check, ageing_check, count_check, family_check, fixed_check, flood_check,
    group_check, limit_check, listed_check, mac_check, own_check, pool_check, port_check, put,
    put_all, room_check, segment_check, tunnel_check, usable_check, vid_check, vnis_check,
};
use crate::segment::{Segment, segment_in};
use endpoint_core::state::{Change, EndpointState, NewSegment, Target, kind_of};
use overlay::flood::{FloodList, Own};
use overlay::underlay::Tunnels;
use std::alloc::{AllocError, Global};
use wire::ether::{Mac, Vid};
use wire::ip_udp::{Addr, Tunnel};

/// The checks of a change at a moment, which isn't before any earlier one, each with what it saw. `AllocError`: there was no
/// room for them.
pub(crate) fn checks_of(
    alloc: Global,
    state: &EndpointState,
    now: u64,
    change: Change,
) -> Result<Vec<Check>, AllocError>
    requires time { moment_of state.now ≤ now }
    ensures { IfOk result (λ checks. checks.items ≡ specs.checks (state_at now state.now) change) }
{
    let mut checks = Vec::new(alloc);
    put_checks(&mut checks, state, now, change)?;
    Ok(checks)
}

/// Puts the checks of a change behind others.
fn put_checks(
    checks: &mut Vec<Check>,
    state: &EndpointState,
    now: u64,
    change: Change,
) -> Result<(), AllocError>
    requires time { moment_of state.now ≤ now }
    ensures { OnOk result (checks.new.items ≡ checks.old.items ++ specs.checks (state_at now state.now) change) }
{
    match change {
        Change::AddFlood { vid, addr, tunnel } => put_adding(checks, state, vid, addr, tunnel),
        Change::RemoveFlood { vid, addr, tunnel } => {
            put_leaving(checks, state, vid, addr, tunnel)
        }
        Change::Fix { vid, mac, target } => put_fixing(checks, state, now, vid, mac, target),
        Change::Unfix { vid, mac } => put_unfixing(checks, state, now, vid, mac),
        Change::SetAgeing { vid, seconds } => put_ageing(checks, state, vid, seconds),
        Change::SetLearning { vid, .. } => put_segment_alone(checks, state, vid),
        Change::SetMember { vid, port, .. } => put_membership(checks, state, vid, port),
        Change::PortUp { port } => put_port(checks, state, port),
        Change::PortDown { port } => put_port(checks, state, port),
        Change::Flush { vid } => put_segment_alone(checks, state, vid),
        Change::AddSegment(new) => put_new(checks, state, &new),
        Change::RemoveSegment { vid } => put_segment_alone(checks, state, vid),
        Change::SetLimit { vid, limit } => put_limit(checks, state, vid, limit),
    }
}

/// Puts whether there is a segment, and answers the one that is there.
fn put_segment<'s>(
    checks: &mut Vec<Check>,
    state: &'s EndpointState,
    vid: Vid,
) -> Result<Option<Segment<'s>>, AllocError>
    ensures checks { OnOk result (checks.new.items
        ≡ checks.old.items ++ specs.segment_check vid (is_some (segment_in (settings_of state.now) vid)) ∷ []) }
    ensures segment { IfOk result (λ segment. segment ≡ segment_in (settings_of state.now) vid) }
{
    let segment = segment_in(state, vid);
    put(checks, segment_check(vid, segment.is_some()))?;
    Ok(segment)
}

/// Whether there is a segment, and nothing else.
fn put_segment_alone(
    checks: &mut Vec<Check>,
    state: &EndpointState,
    vid: Vid,
) -> Result<(), AllocError>
    ensures { OnOk result (checks.new.items ≡ checks.old.items ++ specs.in_segment (settings_of state.now) vid (λ g. [])) }
{
    match segment_in(state, vid) {
        None => put(checks, segment_check(vid, false)),
        Some(_) => put(checks, segment_check(vid, true)),
    }
}

/// Puts whether there is the tunnel that is named, or a first one where none is, and answers the kind of one that is there.
fn put_tunnel(
    checks: &mut Vec<Check>,
    tunnels: &Tunnels,
    named: Option<Tunnel>,
) -> Result<Option<Tunnel>, AllocError>
    ensures checks { OnOk result (checks.new.items
        ≡ checks.old.items ++ specs.tunnel_check named (kind_named tunnels.now named) ∷ []) }
    ensures kind { IfOk result (λ kind. kind ≡ kind_named tunnels.now named) }
{
    let kind = kind_of(tunnels, named);
    put(checks, tunnel_check(named, kind))?;
    Ok(kind)
}

/// Whether there is a port.
fn put_port(checks: &mut Vec<Check>, state: &EndpointState, port: u8) -> Result<(), AllocError>
    ensures { let S = settings_of state.now in
        OnOk result (checks.new.items ≡ checks.old.items ++ specs.port_check (length S.ports.ports) port ∷ []) }
{
    put(checks, port_check(state.ports().ports(), port))
}

/// Of a membership: the segment, and the port.
fn put_membership(
    checks: &mut Vec<Check>,
    state: &EndpointState,
    vid: Vid,
    port: u8,
) -> Result<(), AllocError>
    ensures { let S = settings_of state.now in
        OnOk result (checks.new.items
        ≡ checks.old.items ++ specs.in_segment S vid (λ g. specs.port_check (length S.ports.ports) port ∷ [])) }
{
    match put_segment(checks, state, vid)? {
        None => Ok(()),
        Some(_) => put_port(checks, state, port),
    }
}

/// Of an ageing: the segment, and the seconds.
fn put_ageing(
    checks: &mut Vec<Check>,
    state: &EndpointState,
    vid: Vid,
    seconds: u32,
) -> Result<(), AllocError>
    ensures { OnOk result (checks.new.items
        ≡ checks.old.items ++ specs.in_segment (settings_of state.now) vid (λ g. specs.ageing_check seconds ∷ [])) }
{
    match put_segment(checks, state, vid)? {
        None => Ok(()),
        Some(_) => put(checks, ageing_check(seconds)),
    }
}

/// Of a remote endpoint that is to come onto a flood list.
fn put_adding(
    checks: &mut Vec<Check>,
    state: &EndpointState,
    vid: Vid,
    addr: Addr,
    tunnel: Option<Tunnel>,
) -> Result<(), AllocError>
    ensures { let S = settings_of state.now in
        let U = S.overlay.underlay in
        OnOk result (checks.new.items
        ≡ checks.old.items ++ specs.in_segment S vid
        (λ g. specs.at_tunnel g.tunnels tunnel (specs.flood_checks (own U) U.limits.flood g.flood addr))) }
{
    let Some(segment) = put_segment(checks, state, vid)? else {
        return Ok(());
    };
    let Some(kind) = put_tunnel(checks, &segment.tunnels, tunnel)? else {
        return Ok(());
    };
    let own = state.under().own();
    let most = state.under().settings().limits.flood;
    put_flooding(checks, &own, most, segment.flood, addr, kind)
}

/// Of the address of a remote endpoint that is to come onto a flood list of at most so many, at a tunnel of this kind.
fn put_flooding(
    checks: &mut Vec<Check>,
    own: &Own,
    most: u16,
    flood: &FloodList,
    addr: Addr,
    kind: Tunnel,
) -> Result<(), AllocError>
    ensures { OnOk result (checks.new.items ≡ checks.old.items ++ specs.flood_checks own.now most flood.now addr kind) }
{
    put_all(
        checks,
        &[
            usable_check(addr),
            family_check(own, addr),
            own_check(own, addr),
            absent_check(flood.holds(kind, addr)),
            flood_check(most, flood.targets().len()),
        ],
    )
}

/// Of a remote endpoint that is to leave a flood list.
fn put_leaving(
    checks: &mut Vec<Check>,
    state: &EndpointState,
    vid: Vid,
    addr: Addr,
    tunnel: Option<Tunnel>,
) -> Result<(), AllocError>
    ensures { OnOk result (checks.new.items
        ≡ checks.old.items ++ specs.in_segment (settings_of state.now) vid
        (λ g. specs.at_tunnel g.tunnels tunnel (specs.leaving_checks g.flood addr))) }
{
    let Some(segment) = put_segment(checks, state, vid)? else {
        return Ok(());
    };
    let Some(kind) = put_tunnel(checks, &segment.tunnels, tunnel)? else {
        return Ok(());
    };
    put(checks, listed_check(segment.flood.holds(kind, addr)))
}

/// Of a fixed entry that is to come.
fn put_fixing(
    checks: &mut Vec<Check>,
    state: &EndpointState,
    now: u64,
    vid: Vid,
    mac: Mac,
    target: Target,
) -> Result<(), AllocError>
    requires time { moment_of state.now ≤ now }
    ensures { let B = state_at now state.now in
        OnOk result (checks.new.items
        ≡ checks.old.items ++ specs.in_segment B.settings vid (specs.fix_checks B.settings mac target (B.tables vid))) }
{
    match put_segment(checks, state, vid)? {
        None => Ok(()),
        Some(segment) => {
            put(checks, mac_check(mac))?;
            put_target(checks, state, &segment, target)?;
            put(checks, entry_room(state, now, vid, mac, segment.limit))
        }
    }
}

/// The room of a segment's table, which may have so many entries, for a fixed one.
fn entry_room(state: &EndpointState, now: u64, vid: Vid, mac: Mac, limit: u32) -> Check
    requires time { moment_of state.now ≤ now }
    ensures { result ≡ specs.room_check limit mac ((state_at now state.now).tables vid) }
{
    let stood = state.entry(vid, mac, now);
    let entries = state.entry_count(vid, now);
    room_check(limit, stood, entries)
}

/// Of the place where a fixed entry of a segment is to stand.
fn put_target(
    checks: &mut Vec<Check>,
    state: &EndpointState,
    segment: &Segment,
    target: Target,
) -> Result<(), AllocError>
    ensures { OnOk result (checks.new.items
        ≡ checks.old.items ++ specs.target_checks (settings_of state.now) segment.now target) }
{
    match target {
        Target::Local(port) => put_port(checks, state, port),
        Target::Remote(addr, tunnel) => {
            let own = state.under().own();
            put_remote(checks, &segment.tunnels, tunnel, &own, addr)
        }
    }
}

/// Of a remote endpoint where a fixed entry is to stand.
fn put_remote(
    checks: &mut Vec<Check>,
    tunnels: &Tunnels,
    tunnel: Option<Tunnel>,
    own: &Own,
    addr: Addr,
) -> Result<(), AllocError>
    ensures { OnOk result (checks.new.items
        ≡ checks.old.items ++ specs.at_tunnel tunnels.now tunnel (specs.remote_checks own.now addr)) }
{
    match put_tunnel(checks, tunnels, tunnel)? {
        None => Ok(()),
        Some(_) => put_all(
            checks,
            &[
                usable_check(addr),
                group_check(addr),
                family_check(own, addr),
                own_check(own, addr),
            ],
        ),
    }
}

/// Of a fixed entry that is to go.
fn put_unfixing(
    checks: &mut Vec<Check>,
    state: &EndpointState,
    now: u64,
    vid: Vid,
    mac: Mac,
) -> Result<(), AllocError>
    requires time { moment_of state.now ≤ now }
    ensures { let B = state_at now state.now in
        OnOk result (checks.new.items
        ≡ checks.old.items ++ specs.in_segment B.settings vid (λ g. specs.fixed_check mac (B.tables vid) ∷ [])) }
{
    match put_segment(checks, state, vid)? {
        None => Ok(()),
        Some(_) => {
            let stood = state.entry(vid, mac, now);
            put(checks, fixed_check(stood))
        }
    }
}

/// Of a segment that is to come.
fn put_new(
    checks: &mut Vec<Check>,
    state: &EndpointState,
    new: &NewSegment,
) -> Result<(), AllocError>
    ensures { OnOk result (checks.new.items ≡ checks.old.items ++ specs.new_checks (settings_of state.now) new.now) }
{
    put_all(
        checks,
        &[
            limit_check(state.under().settings().limits.entries, new.limit),
            ageing_check(new.ageing),
            vid_check(new.vid, segment_in(state, new.vid).is_some()),
            vnis_check(state.under().are_free(&new.tunnels)),
            count_check(
                state.segment_count(),
                state.under().settings().limits.segments,
            ),
            room_of(state, new.limit),
        ],
    )
}

/// Of a new limit of a segment.
fn put_limit(
    checks: &mut Vec<Check>,
    state: &EndpointState,
    vid: Vid,
    limit: u32,
) -> Result<(), AllocError>
    ensures { let S = settings_of state.now in
        OnOk result (checks.new.items ≡ checks.old.items ++ specs.in_segment S vid (specs.limit_checks S limit)) }
{
    match put_segment(checks, state, vid)? {
        None => Ok(()),
        Some(segment) => {
            let room = room_with(state, segment.limit, limit);
            let most = state.under().settings().limits.entries;
            put_all(checks, &[limit_check(most, limit), room])
        }
    }
}

/// The room of the pool for a limit.
fn room_of(state: &EndpointState, limit: u32) -> Check
    ensures { let S = settings_of state.now in
        result ≡ specs.pool_check (is_too_much S limit) (specs.room_in S) }
{
    pool_check(limit, u64::from(state.room()))
}

/// The same with what an earlier limit gives back.
fn room_with(state: &EndpointState, back: u32, limit: u32) -> Check
    ensures { let S = settings_of state.now in
        result ≡ specs.pool_check (nat_lt (S.pool + back) (sum_of_limits (tables_asked S) + limit)) (specs.room_in S + back) }
{
    pool_check(limit, u64::from(state.room()) + u64::from(back))
}
