//! What a state says of a pool, a brigade, a bucket and a cursor.

/// Which buckets may stand in a usable brigade, from the fewest on.
#[derive(Clone, Copy)]
pub enum Contents {
    /// None.
    Empty,
    /// FLUSH buckets alone.
    Flushes,
    /// Any but EOS.
    NoEos,
    /// No data behind an EOS.
    NoLateData,
    /// Any.
    Any,
}

/// Which kinds a bucket may be of.
#[derive(Clone, Copy)]
pub struct Classes {
    /// Of a kind that has bytes.
    pub bytes: bool,
    /// FLUSH.
    pub flush: bool,
    /// EOS.
    pub eos: bool,
}

/// Some of the request's pool and of the pools `p0` to `p7`.
#[derive(Clone, Copy)]
pub struct PoolSet {
    /// The request's pool.
    pub req: bool,
    /// The pools of the variables, by their numbers.
    pub own: [bool; 8],
}

/// What the buckets of a brigade, or a loose bucket, may live as long as. One that depends on nothing, or on the connection's
/// pool, is always meant.
#[derive(Clone, Copy)]
pub struct HomeSet {
    /// What lives through the call: a call, the request's pool, a pool of another filter.
    pub call: bool,
    /// A home of this instance that is dead.
    pub dead: bool,
    /// These pools, and those above them.
    pub pools: PoolSet,
}

/// What a pool variable may be.
#[derive(Clone, Copy)]
pub struct PoolState {
    /// Nothing was made in it.
    pub null: bool,
    /// Its pool is dead.
    pub gone: bool,
    /// Its pool is live.
    pub live: bool,
}

/// What a brigade variable may be.
#[derive(Clone, Copy)]
pub struct BrigadeState {
    /// Nothing was made in it.
    pub null: bool,
    /// Its brigade is dead.
    pub gone: bool,
    /// Its brigade is live.
    pub live: bool,
    /// A live one may be used.
    pub usable: bool,
    /// A live one was passed.
    pub passed: bool,
    /// What stands in a usable one.
    pub content: Contents,
    /// What the buckets of a usable one live as long as.
    pub homes: HomeSet,
}

/// What a cursor is known to be. A brigade is numbered as its variable, and `in` is 8.
#[derive(Clone, Copy)]
pub enum CursorState {
    /// Nothing is known of it.
    Unset,
    /// It is at a loose bucket of these classes and homes.
    Loose(Classes, HomeSet),
    /// It is at a bucket of the brigade.
    In(u8, Classes),
    /// It is the end of the brigade.
    End(u8),
    /// It is at a bucket of the brigade, or its end.
    InOrEnd(u8, Classes),
}

impl PoolState {
    /// Nothing was made in it.
    pub const NULL: PoolState = PoolState {
        null: true,
        gone: false,
        live: false,
    };

    /// Its pool is live.
    pub const LIVE: PoolState = PoolState {
        null: false,
        gone: false,
        live: true,
    };
}

impl BrigadeState {
    /// Nothing was made in it.
    pub const UNMADE: BrigadeState = BrigadeState {
        null: true,
        gone: false,
        live: false,
        usable: false,
        passed: false,
        content: Contents::Empty,
        homes: HomeSet::NONE,
    };
}
