//! A segment's flood list.
//!
//! A list of more than 16 remotes takes a room with its 17th. So one room is asked for before a segment's list is read, where the
//! limits allow it more than 16, and what reads the list is lent it.
ghost use Rattle.std.specs.Prelude.{◌≡◌, [], map, nat_lt, is_some, IsTrue, IfSome, IfOk, IfErr, codes};
ghost use Rattle.toml.specs.View.{view};
ghost use Rattle.config_text.specs.declared.fault.SettingsFault.TheVariants.{OutOfMemory};
ghost use Rattle.config_text.specs.Column.{gathered};
ghost use Rattle.config_text.specs.Reader.{place_of};
ghost use Rattle.config_text.specs.Table.{listed};
ghost use Rattle.overlay_config.specs.Flood.{put_remote, is_roomy};

use config_text::{AnyAddr, Column, Reader, SettingsFault};
use overlay::flood::{FloodList, Own, Room};
use std::alloc::Global;
use toml::Value;
use wire::ip_udp::Tunnel;

/// The most remotes of a list that stand in the list itself.
const FEW: u16 = 16;

/// The room for a segment's flood list, where it may have more than 16 remotes, and only there.
pub(crate) fn room_for(alloc: Global, most: u16) -> Result<Option<Room>, SettingsFault>
    ensures asked { IfOk result (λ room. is_some room ≡ nat_lt 16 most) }
    ensures room { IfOk result (λ room. IsTrue (is_roomy most [] room)) }
    ensures memory { IfErr result (λ e. e ≡ OutOfMemory) }
{
    if most <= FEW {
        return Ok(None);
    }
    let room = Room::new(alloc)?;
    Ok(Some(room))
}

/// Addresses that the flood list takes, for tunnels of one kind.
#[derive(Clone, Copy)]
pub(crate) struct Remotes {
    pub(crate) kind: Tunnel,
    pub(crate) own: Own,
    /// The most remotes of the list, of both tunnels together.
    pub(crate) most: u16,
}

impl Remotes {
    /// The list with the remote that a value tells. None: the value tells none, or the list doesn't take it.
    fn put(&self, list: FloodList, value: &Value, room: &mut Option<Room>) -> Option<FloodList>
        requires { IsTrue (is_roomy self.now.most list room.old) }
        ensures value { result ≡ put_remote self.now.own self.now.most self.now.kind list (view value.now) }
        ensures room { IfSome result (λ longer. IsTrue (is_roomy self.now.most longer room.new)) }
    {
        let addr = AnyAddr.read(value)?;
        let mut list = list;
        list.add(self.kind, addr, &self.own, self.most, room).ok()?;
        Some(list)
    }

    /// The list with the remotes that these items tell, each put behind those before it; none where it doesn't take one.
    fn put_all(
        &self,
        list: FloodList,
        items: &[Value],
        room: &mut Option<Room>,
    ) -> Option<FloodList>
        requires { IsTrue (is_roomy self.now.most list room.old) }
        ensures value { result ≡ gathered (put_remote self.now.own self.now.most self.now.kind) list (map view items.now) }
        ensures room { IfSome result (λ longer. IsTrue (is_roomy self.now.most longer room.new)) }
    {
        let mut longer = list;
        for value in items {
            longer = self.put(longer, value, room)?;
        }
        Some(longer)
    }

    /// The list with the remotes under the key `flood`, of so many items at most.
    pub(crate) fn read(
        &self,
        at: &Reader,
        limit: usize,
        list: FloodList,
        room: &mut Option<Room>,
    ) -> Result<FloodList, SettingsFault>
        requires { IsTrue (is_roomy self.now.most list room.old) }
        ensures value { result ≡ listed (place_of at.now) (codes "flood") limit
            (put_remote self.now.own self.now.most self.now.kind) list }
        ensures room { IfOk result (λ longer. IsTrue (is_roomy self.now.most longer room.new)) }
    {
        let items = at.limited_items("flood", limit)?;
        match self.put_all(list, items, room) {
            Some(longer) => Ok(longer),
            None => Err(SettingsFault::BadValue(at.path("flood"))),
        }
    }
}
