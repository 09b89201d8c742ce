//! The words of the script language, for hints alone: what a line says is settled by `esync_script`.
//!
//! A command is written as its name and, behind a colon, a letter for each word that follows:
//!
//! | Letter | The word is | In a [`Language`] of few numbers |
//! |---|---|---|
//! | `k` | a number, at most 2^64 - 1 | |
//! | `v` | a value, at most 2^64 - 1 | at most 2^32 - 1 |
//! | `n` | a number of bytes, at most 4096 | at most 16 |
//! | `b` | bytes, at most 4096, as `1,2,255`, or `-` | at most 16 |
//! | `c` | a capacity: 1 to 4096 | 1, 2, 3, 4 or 8 |
//! | `1` | the capacity 1 | |
//! | `h` | a number of subscribers, or behind it of publishers, at most 16 | none |
//! | `K`, `V`, `H` | as `k`, `v` or `h`, and may be missing | |

use esync_script::capacity::{AnyCapacity, Capacity, Size};
use esync_words::lines::LineLimit;

/// What is written in these words.
#[derive(Clone, Copy)]
pub enum Language {
    /// A script that is played over the machine of its primitive.
    Script,
    /// A recorded run: a script with a reply behind each command.
    Recorded,
    /// A script over a shared form, or a system. Its numbers are those of `syncrun`.
    Few,
}

impl Language {
    /// How many bytes a line has at most.
    pub fn longest(self) -> usize {
        match self {
            Language::Script | Language::Recorded => AnyCapacity::longest(),
            Language::Few => Capacity::longest(),
        }
    }

    /// How many bytes a command of a pipe has at most.
    pub fn bytes(self) -> usize {
        match self {
            Language::Script | Language::Recorded => AnyCapacity::bytes(),
            Language::Few => Capacity::bytes(),
        }
    }

    /// The greatest value.
    pub fn greatest(self) -> u64 {
        match self {
            Language::Script | Language::Recorded => u64::MAX,
            Language::Few => u64::from(u32::MAX),
        }
    }

    /// Whether line 1 can say this capacity.
    pub fn has_capacity(self, places: u64) -> bool {
        match self {
            Language::Script | Language::Recorded => AnyCapacity::of(places).is_some(),
            Language::Few => Capacity::of(places).is_some(),
        }
    }

    /// The primitives that line 1 may name.
    pub fn openings(self) -> &'static str {
        match self {
            Language::Script | Language::Recorded => {
                "channel:c max:c min:c pubsub:cKHh signal:1 greedy:1k fair:ck pipe:c once:1 lazy:1v zerocopy:c mutex:1vv watch:cV"
            }
            Language::Few => {
                "channel:c max:c min:c pubsub:cK signal:1 greedy:1k fair:ck pipe:c once:1 lazy:1v zerocopy:c mutex:1vv watch:cV"
            }
        }
    }

    /// The capacities that line 1 can say.
    pub fn capacities(self) -> &'static str {
        match self {
            Language::Script | Language::Recorded => "1 to 4096",
            Language::Few => "1, 2, 3, 4 or 8",
        }
    }
}

/// The commands that each primitive has, but for `start`, whose first word is the number of the request.
pub const REQUESTS: &str = "poll:kk end:k";

/// What may be asked of a primitive by a request, behind `start` and its number.
pub fn asks_of(primitive: &str) -> &'static str {
    match primitive {
        "channel" | "max" | "min" => "send:v receive send-ready receive-ready",
        "pubsub" => "publish:kv message:k message-pure:k stream:k",
        "signal" => "wait",
        "greedy" | "fair" => "acquire:k acquire-all:k",
        "once" => "get",
        "mutex" => "lock",
        "watch" => "get:k changed:k get-below:kv changed-below:kv",
        "zerocopy" => "send receive",
        "pipe" => "write:b write-all:b read:n fill",
        _ => "",
    }
}

/// The calls of a primitive.
pub fn calls_of(primitive: &str) -> &'static str {
    match primitive {
        "channel" | "max" | "min" => "try-send:v try-receive len free clear",
        "pubsub" => {
            "join:k publisher:k leave:k retire:k try-publish:kv next:k next-pure:k available:k immediate:v len free clear"
        }
        "signal" => "signal:v reset try-take signaled",
        "greedy" | "fair" => "try:kk try-all:kk disarm:k release:k set:k permits",
        "once" => "try-get init:v get-or-init:v take is-set",
        "lazy" => "get into",
        "mutex" => "try-lock:k read:k write:kvv write-part:kv map:k",
        "watch" => {
            "receiver:k anon:k leave:k clear send:v modify:v modify-if:v try-get get:k changed:k get-below:kv changed-below:kv id contains"
        }
        "zerocopy" => {
            "try-send try-receive write:v done-send done-receive end-send end-receive clear-send clear-receive len free"
        }
        "pipe" => "try-write:b try-read:n try-fill consume:k len free clear",
        _ => "",
    }
}

/// The letters of the command of this name among these, if there is one.
pub fn shape_of<'a>(commands: &'a str, name: &str) -> Option<&'a str> {
    for command in commands.split(' ') {
        let (own, shape) = command.split_once(':').unwrap_or((command, ""));
        if own == name && !name.is_empty() {
            return Some(shape);
        }
    }
    None
}
