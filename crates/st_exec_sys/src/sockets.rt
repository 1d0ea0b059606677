// The calls on sockets.
ghost use Rattle.std.specs.Prelude.{◌≡◌, ◌^◌, ◌-◌, ◌<◌, [], true, min, IfOk, OnErr};
ghost use Rattle.std.specs.Result.{result_err};
ghost use Rattle.st_effects.specs.Sockets.{bind_outcome, connect_outcome, port_in, socket_file, socket_outcome};
ghost use Rattle.st_effects.specs.System as effects;
ghost use Rattle.st_effects.specs.System.{arg_text_at, register};
ghost use Rattle.st_exec_sys.specs.Sockets.{low_bind_refused, HasPort};
ghost use Rattle.st_fds.specs.Table.{KeepsTables};
ghost use Rattle.st_model.specs.Descriptors.{has_table};
ghost use Rattle.st_model.specs.Tree.{Tree};
ghost use Rattle.st_request.specs.Outcome.{outcome_of, with_descriptors};
ghost use Rattle.st_request.specs.Ready.{AreValidOpenFiles};

use st_base::Errno;
use st_fds::Fds;
use st_model::{FileKind, OpenFile};
use st_request::{Outcome, Request};
use std::alloc::{AllocError, Global};

// The least port that every user may bind.
const FIRST_FREE_PORT: u16 = 1_024;

// A socket without a port.
const SOCKET: OpenFile = OpenFile {
    kind: FileKind::Socket {
        port: None,
        connected: false,
    },
    read: true,
    write: true,
    append: false,
    offset: 0,
};

/// socket(domain, type): opens a socket, which isn't bound. EMFILE if all descriptors are open. If memory runs out, nothing
/// changes.
pub fn socket(fds: &mut Fds, alloc: Global, request: &Request<'_>) -> Result<Outcome, AllocError>
    requires { has_table fds.old request.now.pid ≡ true }
    ensures outcome { IfOk result (λ outcome. (system : effects.System) → outcome_of outcome fds.new ≡ socket_outcome (with_descriptors system fds.old) request.now) }
    ensures changes { IfOk result (λ outcome. outcome.changes ≡ []) }
    ensures tables { KeepsTables fds.old fds.new }
    ensures real { (tree : Tree) → AreValidOpenFiles tree fds.old → AreValidOpenFiles tree fds.new }
    ensures err { OnErr result (fds.new ≡ fds.old) }
{
    if fds.is_full(request.pid) {
        return Ok(Outcome::failure(alloc, Errno::EMFILE));
    }
    let Ok(fd) = fds.open(request.pid, SOCKET) else {
        return Err(AllocError);
    };
    Ok(Outcome::value(alloc, u64::from(fd)))
}

/// The number after the last colon of an address, or 2^64 - 1 if the number is greater. A number above 65,535 isn't a port.
pub fn port_in(address: &[u8]) -> u64
    ensures { result ≡ min (port_in address.now) (2 ^ 64 - 1) }
{
    let mut port: u64 = 0;
    for byte in address {
        port = if *byte == b':' {
            0
        } else {
            let digit = byte.saturating_sub(b'0');
            port.saturating_mul(10).saturating_add(u64::from(digit))
        };
    }
    port
}

// The port of the address that a call is made with.
fn port_of(request: &Request<'_>) -> u16
    requires { HasPort request.now }
    ensures { result ≡ port_in (arg_text_at request.now 0) }
{
    port_in(request.text(0)) as u16
}

// Checks that a process may bind a descriptor to a port, whether the port is free or not; otherwise gives the error of the call.
fn may_bind(fds: &Fds, request: &Request<'_>, port: u16) -> Result<(), Errno>
    requires { has_table fds.now request.now.pid ≡ true }
    ensures { result_err result ≡ low_bind_refused fds.now request.now port }
{
    let file = fds
        .get(request.pid, request.register(0))
        .ok_or(Errno::EBADF)?;
    let FileKind::Socket { port: None, .. } = file.kind else {
        return Err(Errno::EINVAL);
    };
    if port == 0 {
        return Err(Errno::EINVAL);
    }
    if port < FIRST_FREE_PORT && request.ids.euid != 0 {
        return Err(Errno::EACCES);
    }
    Ok(())
}

/// bind(fd, addr): gives a socket a port. EBADF if the descriptor isn't open. Otherwise EINVAL if its file isn't a socket, if the
/// socket has a port, or if the port is 0. Otherwise EACCES if the port is below 1,024 and the effective user isn't 0. Otherwise
/// EADDRINUSE if an open socket has the port. Takes no memory.
pub fn bind(fds: &mut Fds, alloc: Global, request: &Request<'_>) -> Outcome
    requires table { has_table fds.old request.now.pid ≡ true }
    requires port { HasPort request.now }
    ensures outcome { (system : effects.System) → outcome_of result fds.new ≡ bind_outcome (with_descriptors system fds.old) request.now }
    ensures changes { result.changes ≡ [] }
    ensures tables { KeepsTables fds.old fds.new }
    ensures real { (tree : Tree) → AreValidOpenFiles tree fds.old → AreValidOpenFiles tree fds.new }
{
    let port = port_of(request);
    if let Err(errno) = may_bind(fds, request, port) {
        return Outcome::failure(alloc, errno);
    }
    match fds.bind(request.pid, request.register(0), port) {
        Ok(()) => Outcome::value(alloc, 0),
        Err(errno) => Outcome::failure(alloc, errno),
    }
}

/// connect(fd, addr): connects a socket to a port. EBADF if the descriptor isn't open. Otherwise EINVAL if its file isn't a socket
/// or is connected. Otherwise ECONNREFUSED if no open socket has the port. Takes no memory.
pub fn connect(fds: &mut Fds, alloc: Global, request: &Request<'_>) -> Outcome
    requires table { has_table fds.old request.now.pid ≡ true }
    requires port { HasPort request.now }
    ensures outcome { (system : effects.System) → outcome_of result fds.new ≡ connect_outcome (with_descriptors system fds.old) request.now }
    ensures changes { result.changes ≡ [] }
    ensures tables { KeepsTables fds.old fds.new }
    ensures real { (tree : Tree) → AreValidOpenFiles tree fds.old → AreValidOpenFiles tree fds.new }
{
    match fds.connect(request.pid, request.register(0), port_of(request)) {
        Ok(()) => Outcome::value(alloc, 0),
        Err(errno) => Outcome::failure(alloc, errno),
    }
}
