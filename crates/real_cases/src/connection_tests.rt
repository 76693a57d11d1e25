//! Tests of connections to servers and from clients, each from the machine to itself.

use dsy_base::dial::Dial;
use dsy_base::fault::IoFault;
use dsy_base::link::Link;
use dsy_base::listen::Listen;
use real_links::real_dial::RealDial;
use real_links::real_link::RealLink;
use real_links::real_listen::RealListen;
use std::io::{Read, Write};
use std::net::{TcpListener, TcpStream};

fn dialed<'a>(
    dial: &mut RealDial<'a, HostRuntime>,
    host: &str,
    port: u16,
) -> Option<RealLink<'a, HostRuntime, TcpStream>> {
    dial.dial(host, port).ok()
}

fn bind(listen: &mut RealListen<HostRuntime>, host: &str, port: u16) -> Result<(), IoFault> {
    listen.bind(host, port)
}

fn accepted<'a>(
    listen: &mut RealListen<'a, HostRuntime>,
) -> Option<RealLink<'a, HostRuntime, TcpStream>> {
    listen.accept().ok()?
}

// Why no client connects.
fn not_accepted(listen: &mut RealListen<HostRuntime>) -> Option<IoFault> {
    listen.accept().err()
}

fn sent(link: &mut RealLink<HostRuntime, TcpStream>, b: &[u8]) -> bool {
    link.write(b).is_ok()
}

fn received(link: &mut RealLink<HostRuntime, TcpStream>, out: &mut [u8; 4]) -> Option<usize> {
    link.read(out).ok()
}

fn sent_by(peer: &mut TcpStream, b: &[u8]) -> bool {
    peer.write_all(b).is_ok()
}

fn received_by(peer: &mut TcpStream, out: &mut [u8; 4]) -> Option<usize> {
    peer.read(out).ok()
}

fn port_of(listener: &TcpListener) -> Option<u16> {
    Some(listener.local_addr().ok()?.port())
}

#[test]
fn bytes_come_and_go_over_a_connection(rt: HostRuntime) {
    let listener = TcpListener::bind(&rt, "127.0.0.1:0").expect(&rt, "no listener");
    let port = port_of(&listener).expect(&rt, "no port");
    let mut dial = RealDial::new(&rt);
    let mut link = dialed(&mut dial, "127.0.0.1", port).expect(&rt, "no answer");
    let (mut peer, _) = listener.accept().expect(&rt, "no client");
    let mut got = [0; 4];
    assert!(rt; sent(&mut link, b"abc"));
    assert!(rt; received_by(&mut peer, &mut got) == Some(3));
    assert!(rt; got == *b"abc\0");
    assert!(rt; sent_by(&mut peer, b"xy"));
    assert!(rt; received(&mut link, &mut got) == Some(2));
    assert!(rt; got == *b"xyc\0");
    dial.hang_up(link);
    assert!(rt; received_by(&mut peer, &mut got) == Some(0));
    assert!(rt; dial.faults() == 0);
}

#[test]
fn an_address_of_version_6_stands_in_brackets(rt: HostRuntime) {
    let Ok(listener) = TcpListener::bind(&rt, "[::1]:0") else {
        return;
    };
    let port = port_of(&listener).expect(&rt, "no port");
    let mut dial = RealDial::new(&rt);
    let link = dialed(&mut dial, "[::1]", port).expect(&rt, "no answer");
    dial.hang_up(link);
}

#[test]
fn a_refused_connection_is_counted(rt: HostRuntime) {
    let listener = TcpListener::bind(&rt, "127.0.0.1:0").expect(&rt, "no listener");
    let port = port_of(&listener).expect(&rt, "no port");
    drop(listener);
    let mut dial = RealDial::new(&rt);
    assert!(rt; dialed(&mut dial, "127.0.0.1", port).is_none());
    assert!(rt; dial.faults() == 1);
    let other = dial.fork().ok().expect(&rt, "no memory");
    assert!(rt; other.faults() == 0);
    dial.join(other);
    assert!(rt; dial.faults() == 1);
}

#[test]
fn a_client_is_heard_and_told_of_the_end(rt: HostRuntime) {
    let mut listen = RealListen::new(&rt);
    assert!(rt; bind(&mut listen, "127.0.0.1", 0).is_ok());
    let port = listen.port().expect(&rt, "no port");
    let mut dial = RealDial::new(&rt);
    let mut near = dialed(&mut dial, "127.0.0.1", port).expect(&rt, "no answer");
    let mut far = accepted(&mut listen).expect(&rt, "no client");
    let mut got = [0; 4];
    assert!(rt; sent(&mut near, b"abc"));
    assert!(rt; received(&mut far, &mut got) == Some(3));
    assert!(rt; got == *b"abc\0");
    assert!(rt; sent(&mut far, b"xy"));
    // What still comes is taken, and the reply arrives all the same.
    assert!(rt; sent(&mut near, b"more"));
    near.shut();
    listen.end(far);
    assert!(rt; received(&mut near, &mut got) == Some(2));
    assert!(rt; got == *b"xyc\0");
    assert!(rt; received(&mut near, &mut got) == Some(0));
    assert!(rt; listen.faults() == 0);
}

#[test]
fn without_a_host_all_addresses_are_listened_at(rt: HostRuntime) {
    let mut listen = RealListen::new(&rt);
    assert!(rt; bind(&mut listen, "", 0).is_ok());
    let port = listen.port().expect(&rt, "no port");
    let mut dial = RealDial::new(&rt);
    let near = dialed(&mut dial, "127.0.0.1", port).expect(&rt, "no answer");
    let far = accepted(&mut listen).expect(&rt, "no client");
    dial.hang_up(near);
    listen.end(far);
}

#[test]
fn an_address_in_use_is_counted(rt: HostRuntime) {
    let mut first = RealListen::new(&rt);
    let mut second = RealListen::new(&rt);
    assert!(rt; bind(&mut first, "127.0.0.1", 0).is_ok());
    let port = first.port().expect(&rt, "no port");
    assert!(rt; bind(&mut second, "127.0.0.1", port) == Err(IoFault::Failed));
    assert!(rt; not_accepted(&mut second) == Some(IoFault::Failed));
    assert!(rt; (first.faults(), second.faults()) == (0, 2));
}
