//! Lets new connections in: a thread for each reads its first bytes.

use crate::arrival::Request;
use crate::shared::Server;
use ps_desk::{DeskName, desk_is_sync};
use ps_keep::Device;
use ps_kept_desk::keeper_is_sync;
use ps_session::Resources;
use std::net::TcpStream;
use std::sync::Wait;
use std::thread::{Scope, Threads};
use std::time::Clock;

/// Starts a thread that reads a new connection's first bytes, answers a request, or has the connection wait for a slot.
///
/// Returns false if the system has no second handle to the connection, which is turned away then; true otherwise. If no
/// thread can be started, this one does that work. A connection for the news is left to the threads of `Watchers`.
pub(crate) fn let_in<
    's,
    E,
    L: DeskName + Send + Sync + 's,
    W: Wait + Drop + Send + 's,
    D: Device + Drop + Send + 's,
    R: Threads + Wait + Clock + Sync,
>(
    scope: &Scope<'s, E>,
    resources: Resources<'s, R>,
    server: &Server<'s, L, W, D>,
    stream: TcpStream,
) -> bool {
    // for the facts that threads may share the desk and the keeper
    desk_is_sync::<L, W>();
    keeper_is_sync::<L, D>();
    let lobby = server.lobby;
    let desk = server.desk;
    let shared = server.shared;
    let watchers = server.watchers;
    let rt = resources.threads;
    let Some(number) = lobby.number(rt, &stream) else {
        lobby.turn_away(stream);
        return false;
    };
    let begun = scope.spawn(move || {
        let has_room = match watchers {
            Some(watchers) => watchers.has_room(),
            None => false,
        };
        let news = match lobby.hear(rt, stream, has_room) {
            Request::Slot(arrival) => {
                lobby.enter(rt, arrival);
                None
            }
            Request::News(stream) => Some(stream),
            Request::Nothing => None,
        };
        lobby.is_heard(rt, number);
        shared.bell().ring();
        if let (Some(stream), Some(watchers)) = (news, watchers) {
            watchers.join(resources, desk, shared, stream);
        }
    });
    match begun {
        Ok(_) => {}
        Err(refused) => (refused.value)(),
    }
    true
}
