//! The faults that end a join or a relay.
use ps_peers::SyncFault;

/// One of the two peers of a join.
#[derive(Clone, Copy, Debug, PartialEq, Eq)]
pub enum End {
    /// The first peer, `from`: its changes are carried first.
    From,
    /// The other peer, `to`.
    To,
}

/// Why a join ended: which peer failed, refused or closed, and how.
#[derive(Debug, Drop)]
pub struct JoinFault {
    /// the peer at which the join ended
    pub end: End,
    /// what happened there: the fault of that peer or of its connection
    pub fault: SyncFault,
}

/// Why a relay ended early.
#[derive(Debug, Drop)]
pub enum RelayFault {
    /// The output failed.
    Output,
    /// The exchange with the server failed, or memory ran out. The field says how.
    Server(SyncFault),
}
