//! The limits of a lobby.

ghost use Rattle.std.specs.Prelude.{◌≡◌};
ghost use Rattle.dbgd_edges.specs.Lobbies.{lobby_room, usual_limits};
ghost use Rattle.dbgd_edges.specs.Numbers.{ArePinnedLobbyLimits, ArePinnedLobbySizes};

use libc::types::rlimit;
use libc::{RLIMIT_NOFILE, getrlimit};

/// Seconds that an idle connection stands in the lobby. Scrapers ask each minute.
pub const IDLE_SECS: u64 = 75;

/// Seconds that a head may take, from its first byte.
pub const HEAD_SECS: u64 = 5;

/// Milliseconds that a connection which was shut stands in the lobby, until its other side has ended.
pub const SHUT_MILLIS: u64 = 500;

/// How many connections stand in the lobby, at most.
pub const LOBBY_CONNS: u64 = 16_384;

/// How many bytes of heads that aren't whole stand in the lobby, at most.
pub const LOBBY_BYTES: u64 = 67_108_864;

/// How many descriptors are left to each worker.
pub const FILES_A_WORKER: u64 = 4;

/// How many descriptors are left beside those of the workers.
pub const FILES_BESIDE: u64 = 32;

/// How many descriptors a process is taken to have that can't be asked.
pub const FILES_UNKNOWN: u64 = 1024;

/// The limits of a lobby.
#[derive(Clone, Copy)]
pub struct LobbyLimits {
    /// Milliseconds that an idle connection stands there.
    pub idle_millis: u64,
    /// Milliseconds that a head may take, from its first byte.
    pub head_millis: u64,
    /// Milliseconds that a connection which was shut stands there.
    pub shut_millis: u64,
    /// How many connections stand there, at most.
    pub conns: u64,
    /// How many bytes of heads that aren't whole stand there, at most.
    pub bytes: u64,
}

impl LobbyLimits {
    /// The limits of a lobby beside so many workers, in a process that has so many descriptors.
    pub fn beside(workers: u64, files: u64) -> LobbyLimits
        ensures value { result ≡ usual_limits workers files }
        ensures limits { ArePinnedLobbyLimits }
    {
        LobbyLimits {
            idle_millis: IDLE_SECS * 1000,
            head_millis: HEAD_SECS * 1000,
            shut_millis: SHUT_MILLIS,
            conns: conns_beside(workers, files),
            bytes: LOBBY_BYTES,
        }
    }
}

/// How many connections may stand in a lobby, so that the workers, the store and all else find
/// descriptors: one at least.
fn conns_beside(workers: u64, files: u64) -> u64
    ensures value { result ≡ lobby_room workers files }
    ensures sizes { ArePinnedLobbySizes }
{
    let taken = workers
        .saturating_mul(FILES_A_WORKER)
        .saturating_add(FILES_BESIDE);
    files.saturating_sub(taken).clamp(1, LOBBY_CONNS)
}

/// How many descriptors this process may have: its soft limit.
pub fn files_here() -> u64 {
    let mut limit = rlimit {
        rlim_cur: 0,
        rlim_max: 0,
    };
    if getrlimit(RLIMIT_NOFILE, &mut limit) == 0 {
        limit.rlim_cur
    } else {
        FILES_UNKNOWN
    }
}
