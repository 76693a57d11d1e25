//! Connections that come at an address are served one after the other, whatever is asked for on them.

ghost use Rattle.std.specs.Prelude.{◌≡◌, ◌≢◌, ◌≤◌, ◌⊎◌, [], false, true, Ok, Err, OnOk, Some};
ghost use Rattle.dsy_base.specs.Counts.{Rose};
ghost use Rattle.server_commands.specs.Serving.{Hears, IsIdle, IsServed, LacksMemory, Listens, RunsOut};
ghost use Rattle.server_commands.specs.Serving.{answer_of_serving};

use crate::address::Address;
use command_outcome::outcome::Outcome;
use dsy_base::fault::IoFault;
use dsy_base::listen::Listen;
use http_serve::connection::{Served, serve_connection};
use http_serve::service::Service;
use std::alloc::Global;

// Serves the connection that comes next, and answers whether one came. A call that fails on it ends it alone.
fn serve_next<L: Listen, S: Service>(
    alloc: Global,
    listen: &mut L,
    desk: &mut S::Desk,
) -> Result<bool, IoFault>
    ensures served { result ≡ Ok true →
        Hears (IsServed (S.protocol (S.setting desk.old))) (L.state listen.old) (L.state listen.new)
        (S.state desk.old) (S.state desk.new) }
    ensures end { result ≡ Ok false → ((L.state listen.new).coming ≡ Some [])
        × IsIdle (L.state listen.old) (L.state listen.new) × (S.state desk.new ≡ S.state desk.old) }
    ensures failed { result ≡ Err IoFault.Failed → Rose (L.state listen.old).faults (L.state listen.new).faults
        × IsIdle (L.state listen.old) (L.state listen.new) × (S.state desk.new ≡ S.state desk.old) }
    ensures lacking { result ≡ Err IoFault.Memory →
        (IsIdle (L.state listen.old) (L.state listen.new) × (S.state desk.new ≡ S.state desk.old))
        ⊎ Hears (LacksMemory (S.protocol (S.setting desk.old))) (L.state listen.old) (L.state listen.new)
        (S.state desk.old) (S.state desk.new) }
    ensures unfailed { result ≢ Err IoFault.Failed → (L.state listen.new).faults ≡ (L.state listen.old).faults }
    ensures kept { S.setting desk.new ≡ S.setting desk.old }
    ensures changed { S.leaves desk.old desk.new }
    ensures faults { (L.state listen.old).faults ≤ (L.state listen.new).faults }
{
    let mut link = match listen.accept() {
        Ok(Some(link)) => link,
        Ok(None) => return Ok(false),
        Err(fault) => return Err(fault),
    };
    let served = serve_connection::<L::Link, S>(alloc, &mut link, desk);
    listen.end(link);
    match served {
        Served::Closed => Ok(true),
        Served::LinkFault => Ok(true),
        Served::Memory => Err(IoFault::Memory),
    }
}

/// Listens at the address, and serves each connection that comes, until no more come.
pub fn serve_in_turn<L: Listen, S: Service>(
    alloc: Global,
    listen: &mut L,
    address: &Address,
    desk: &mut S::Desk,
) -> Result<(), IoFault>
    ensures end { OnOk result ((L.state listen.new).coming ≡ Some []) }
    ensures served { OnOk result (Listens (S.protocol (S.setting desk.old)) (L.state listen.old) (L.state listen.new)
        (S.state desk.old) (S.state desk.new)) }
    ensures failed { result ≡ Err IoFault.Failed → Rose (L.state listen.old).faults (L.state listen.new).faults
        × Listens (S.protocol (S.setting desk.old)) (L.state listen.old) (L.state listen.new)
        (S.state desk.old) (S.state desk.new) }
    ensures lacking { result ≡ Err IoFault.Memory →
        RunsOut (S.protocol (S.setting desk.old)) (L.state listen.old) (L.state listen.new)
        (S.state desk.old) (S.state desk.new) }
    ensures unfailed { result ≡ Err IoFault.Memory → (L.state listen.new).faults ≡ (L.state listen.old).faults }
    ensures kept { S.setting desk.new ≡ S.setting desk.old }
    ensures changed { S.leaves desk.old desk.new }
{
    listen.bind(address.host.as_str(), address.port)?;
    'links: for _ in 0..u64::MAX {
        match serve_next::<L, S>(alloc, listen, desk) {
            Ok(true) => {}
            Ok(false) => return Ok(()),
            Err(fault) => return Err(fault),
        }
    }
    // More connections than 64 bits count.
    Err(IoFault::Memory)
}

/// How a command ends that serves so.
pub fn ended(served: Result<(), IoFault>) -> Result<(), Outcome>
    ensures { result ≡ answer_of_serving served }
{
    match served {
        Ok(()) => Ok(()),
        Err(IoFault::Failed) => Err(Outcome::ListenFault),
        Err(IoFault::Memory) => Err(Outcome::Memory),
    }
}
