//! Ten thousand commands for four rings, which rings of both kinds must answer alike.
//!
//! The commands are made from a rule. A number begins at 1, and before each command it is multiplied by 6364136223846793005, and
//! 1442695040888963407 is added, all modulo 2^64. What it is divided by 2^33 has the digits of the command, from the last: which of the 32
//! rows of `action_of`, a ring of the four, another, the place of a bucket in the first, and one in the other, each below 8, and a letter of 26.
//! A place behind the last bucket stands for the last. A command that wants a bucket, and finds its ring empty, is left out.

use crate::missing::Missing;
use crate::rings::{RingCall, RingPlace, list, make_call, put};
use anyhow::Result;
use bucket_ring::{BucketId, RingId, Rings};
use std::alloc::{AllocError, Global};

/// A command: which one, two of the four rings, the places of two buckets, and a letter.
#[derive(Clone, Copy)]
struct RingCommand {
    which: u64,
    r: usize,
    s: usize,
    i: usize,
    j: usize,
    letter: u8,
}

/// The digits of a command.
fn command_of(digits: u64) -> RingCommand {
    RingCommand {
        which: digits % 32,
        r: (digits / 32 % 4) as usize,
        s: (digits / 128 % 4) as usize,
        i: (digits / 512 % 8) as usize,
        j: (digits / 4096 % 8) as usize,
        letter: b'a' + (digits / 32768 % 26) as u8,
    }
}

/// What a command does with the rings and buckets that it found.
#[derive(Clone, Copy)]
enum Action {
    /// Puts a new bucket in.
    Put(RingPlace),
    /// Moves buckets.
    Call(RingCall),
    /// Drops a bucket.
    Drop(BucketId),
    /// Gives a bucket another letter.
    Set(BucketId),
    /// Puts two buckets into the first ring at once.
    AddTwo,
    /// Drops all that the first ring has.
    DropAll,
    /// Ends the first ring, which makes way for a new one.
    Renew,
    /// Ends both rings, which make way for a pair.
    RenewBoth,
    /// Takes up to seven names, and makes room.
    Skip,
    Nothing,
}

/// The table of the commands. The first ring is `r`, and a bucket of it `i`; the other is `s`, and a bucket of it `j`.
fn action_of(
    c: RingCommand,
    r: RingId,
    s: RingId,
    i: Option<BucketId>,
    j: Option<BucketId>,
) -> Action {
    match (c.which, i, j) {
        (0..=2, _, _) => Action::Put(RingPlace::Tail(r)),
        (3..=5, _, _) => Action::Put(RingPlace::Head(r)),
        (6..=8, Some(at), _) => Action::Put(RingPlace::Before(at)),
        (9..=11, Some(at), _) => Action::Put(RingPlace::After(at)),
        (12..=13, Some(id), _) => Action::Call(RingCall::Move(id, RingPlace::Tail(s))),
        (14..=15, Some(id), _) => Action::Call(RingCall::Move(id, RingPlace::Head(s))),
        (16..=17, Some(id), Some(at)) => Action::Call(RingCall::Move(id, RingPlace::Before(at))),
        (18..=19, _, _) => Action::Call(RingCall::All(s, r)),
        (20..=21, Some(id), _) => Action::Call(RingCall::WithRest(id, s)),
        (22..=24, Some(id), _) => Action::Drop(id),
        (25, Some(id), _) => Action::Set(id),
        (26..=27, _, _) => Action::AddTwo,
        (28, _, _) => Action::DropAll,
        (29, _, _) => Action::Renew,
        (30, _, _) if c.r != c.s => Action::RenewBoth,
        (31, _, _) => Action::Skip,
        _ => Action::Nothing,
    }
}

/// The bucket at a place of a ring, or its last one; `None` where there is no bucket.
fn bucket_at(buckets: &[(BucketId, u8)], place: usize) -> Option<BucketId> {
    let (id, _) = buckets.get(place).or(buckets.last())?;
    Some(*id)
}

/// Puts a new bucket in.
fn add<R: Rings<u8>>(rings: &mut R, place: RingPlace, letter: u8) -> Result<()> {
    match put(rings, place, letter)? {
        Ok(_) => Ok(()),
        Err((why, _)) => Err(why.into()),
    }
}

/// Makes a call that takes no memory.
fn change<R: Rings<u8>>(
    rings: &mut R,
    ring: RingId,
    action: Action,
    letter: u8,
) -> Result<(), Missing> {
    match action {
        Action::Call(call) => return make_call(rings, call),
        Action::Drop(id) if rings.ring_of(id).is_some() => rings.drop_bucket(id),
        Action::Set(id) if rings.ring_of(id).is_some() => {
            rings.set_payload(id, letter);
        }
        Action::DropAll if rings.has_ring(ring) => rings.drop_all(ring),
        Action::Nothing => {}
        _ => return Err(Missing),
    }
    Ok(())
}

/// The letters of two buckets.
fn two(alloc: Global, letter: u8) -> Result<Vec<u8>, AllocError> {
    Ok(vec![in alloc; letter, b'z']?)
}

/// Puts two buckets into a ring at once.
fn add_two<R: Rings<u8>>(rings: &mut R, ring: RingId, two: Vec<u8>) -> Result<()> {
    if rings.has_ring(ring) {
        Ok(rings.add_all(ring, two)?)
    } else {
        Err(Missing.into())
    }
}

/// Ends a ring.
fn end<R: Rings<u8>>(rings: &mut R, ring: RingId) {
    if rings.has_ring(ring) {
        rings.end_ring(ring);
    }
}

/// Takes so many names, and makes room.
fn skip<R: Rings<u8>>(rings: &mut R, count: usize) -> Result<()> {
    let next = rings.next_name();
    rings.set_next(next.saturating_add(count as u64));
    Ok(rings.make_room()?)
}

/// The names and letters of buckets.
type NamedLetters = Vec<(BucketId, u8)>;

/// Rings of one kind, and the names of four of them.
#[derive(Drop)]
struct Four<R> {
    rings: R,
    names: [RingId; 4],
}

impl<R: Rings<u8> + Drop> Four<R> {
    /// The names and letters of all four rings, each behind its own name.
    fn births(&self, alloc: Global) -> Result<NamedLetters, AllocError> {
        let mut told = Vec::new(alloc);
        for name in &self.names {
            let head = BucketId {
                slot: 0,
                birth: *name,
            };
            told.push((head, 0))?;
            list(&self.rings, *name, &mut told)?;
        }
        Ok(told)
    }

    /// What a command does with what the rings hold.
    fn action(&self, alloc: Global, c: RingCommand) -> Result<Action, AllocError> {
        let (r, s) = (self.names[c.r % 4], self.names[c.s % 4]);
        let (mut first, mut second) = (Vec::new(alloc), Vec::new(alloc));
        list(&self.rings, r, &mut first)?;
        list(&self.rings, s, &mut second)?;
        let i = bucket_at(first.as_slice(), c.i);
        let j = bucket_at(second.as_slice(), c.j);
        Ok(action_of(c, r, s, i, j))
    }

    /// Plays a command.
    fn play(&mut self, alloc: Global, c: RingCommand) -> Result<()> {
        let ring = self.names[c.r % 4];
        match self.action(alloc, c)? {
            Action::Put(place) => add(&mut self.rings, place, c.letter),
            Action::AddTwo => add_two(&mut self.rings, ring, two(alloc, c.letter)?),
            Action::Renew => self.renew(c),
            Action::RenewBoth => self.renew_both(c, two(alloc, c.letter)?),
            Action::Skip => skip(&mut self.rings, c.i),
            action => Ok(change(&mut self.rings, ring, action, c.letter)?),
        }
    }

    /// Ends a ring, which makes way for a new one.
    fn renew(&mut self, c: RingCommand) -> Result<()> {
        end(&mut self.rings, self.names[c.r % 4]);
        self.names[c.r % 4] = self.rings.new_ring()?;
        Ok(())
    }

    /// Ends two rings, which make way for a pair.
    fn renew_both(&mut self, c: RingCommand, two: Vec<u8>) -> Result<()> {
        end(&mut self.rings, self.names[c.r % 4]);
        end(&mut self.rings, self.names[c.s % 4]);
        let (first, second) = self.rings.new_pair(two)?;
        self.names[c.r % 4] = first;
        self.names[c.s % 4] = second;
        Ok(())
    }
}

/// Plays the commands on four rings, and gives what they hold after each.
fn play_all<R: Rings<u8> + Drop>(alloc: Global, four: &mut Four<R>) -> Result<Vec<NamedLetters>> {
    let mut history = Vec::new(alloc);
    let mut number = 1u64;
    for _ in 0..10_000 {
        number = number.wrapping_mul(6364136223846793005);
        number = number.wrapping_add(1442695040888963407);
        four.play(alloc, command_of(number >> 33))?;
        history.push(four.births(alloc)?)?;
    }
    Ok(history)
}

/// Plays the commands on rings of a kind.
fn history<R: Rings<u8> + Drop>(alloc: Global) -> Result<Vec<NamedLetters>> {
    let mut four = Four {
        rings: R::new(alloc, 1),
        names: [0; 4],
    };
    for name in &mut four.names {
        *name = four.rings.new_ring()?;
    }
    play_all(alloc, &mut four)
}

/// Whether two lists have the same births and letters.
fn are_alike(plain: &[(BucketId, u8)], raw: &[(BucketId, u8)]) -> bool {
    for ((a, x), (b, y)) in plain.iter().zip(raw) {
        if a.birth != b.birth || x != y {
            return false;
        }
    }
    plain.len() == raw.len()
}

/// A sum over what was told: each birth times 256, and its letter, added to 31 times the sum of those before, modulo 2^64.
fn sum_of(told: &[(BucketId, u8)], before: u64) -> u64 {
    let mut sum = before;
    for (id, letter) in told {
        let one = id.birth.wrapping_mul(256).wrapping_add(*letter as u64);
        sum = sum.wrapping_mul(31).wrapping_add(one);
    }
    sum
}

/// After how many commands rings of two kinds were equal, and the sum over all that was told of the second.
fn tally(plain: &[NamedLetters], raw: &[NamedLetters]) -> (u64, u64) {
    let (mut alike, mut sum) = (0u64, 0);
    for (first, second) in plain.iter().zip(raw) {
        sum = sum_of(second.as_slice(), sum);
        if are_alike(first.as_slice(), second.as_slice()) {
            alike = alike.saturating_add(1);
        }
    }
    (alike, sum)
}

/// Tells of how many commands the rings were equal afterwards, and the sum over all that was told.
fn show_tally(rt: &HostRuntime, tally: (u64, u64)) -> Result<()> {
    println!(rt; "ten thousand commands on rings in a slab and in a raw block")?;
    println!(rt;
        "equal after {} of them, and the sum is {}",
        tally.0, tally.1
    )?;
    Ok(())
}

/// Plays the commands on rings of two kinds.
pub(crate) fn commands_alike<P: Rings<u8> + Drop, Q: Rings<u8> + Drop>(
    rt: &HostRuntime,
) -> Result<()> {
    let plain = history::<P>(rt.alloc())?;
    let raw = history::<Q>(rt.alloc())?;
    show_tally(rt, tally(plain.as_slice(), raw.as_slice()))
}
